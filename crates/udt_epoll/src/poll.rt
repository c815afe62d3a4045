// A poll over an ordered map. It keeps each answer beside its member, so that all members are asked
// before memory may run out.

use crate::asking::{OutOfMemory, Watched, append_ready, ask_all, member_of};
use crate::looks::Looks;
use std::alloc::Global;
use std::collections::BTreeMap;
use std::marker::Model;

/// Members by their IDs, each watched for some bits. Contracts see the list of the members in order
/// of ID.
#[derive(Drop)]
pub struct Poll<M> {
    members: BTreeMap<u32, Watched<M>>,
}

impl<M> Model for Poll<M> {
    ghost use Rattle.udt_epoll.specs.Members.{Members, members_code};

    ghost Value = { Members M };

    ghost coded = { members_code M.code };

    ghost use Rattle.udt_epoll.specs.Inside.{members_of};

    ghost view = { members_of };
}

impl<M: Looks> Poll<M> {
    ghost use Rattle.std.specs.Prelude.{◌≡◌, ℕ, [], ◌∷◌, ◌++◌, length, Some, None, IfOk, OnOk, IfErr, OnErr, IfSome, IfNone, IsNone};
    ghost use Rattle.std.specs.Option.{option_map};
    ghost use Rattle.udt_epoll.specs.Members.{member_at, IsInOrder, ChangesOnly};
    ghost use Rattle.udt_epoll.specs.Ready.{ready_of, AllAsked};

    /// A poll with no members.
    pub fn new(alloc: Global) -> Poll<M>
        ensures { result ≡ [] }
    {
        Poll {
            members: BTreeMap::new(alloc),
        }
    }

    /// Watches a member for some bits. Ok gives back the member that had this ID, and an error the
    /// new one.
    pub fn add(&mut self, id: u32, interest: u8, member: M) -> Result<Option<M>, (M, OutOfMemory)>
        ensures ok { OnOk result (ChangesOnly self.old self.new id
            (Some (record { interest = interest; member = member }))) }
        ensures value { IfOk result (λ replaced.
            replaced ≡ option_map (λ w. w.member) (member_at self.old id)) }
        ensures err { OnErr result (self.new ≡ self.old) }
        ensures given_back { IfErr result (λ e. e.0 ≡ member) }
        ensures memory { OnErr result (IsNone (member_at self.old id)) }
        ensures order { IsInOrder self.new }
    {
        let watched = Watched {
            interest,
            answer: 0,
            member,
        };
        let replaced = match self.members.insert(id, watched) {
            Ok(replaced) => replaced,
            Err(failed) => return Err((failed.value.1.member, OutOfMemory)),
        };
        Ok(member_of(replaced))
    }

    /// Stops watching the member with this ID, and gives it back. None where there is no such member.
    pub fn remove(&mut self, id: u32) -> Option<M>
        ensures value { result ≡ option_map (λ w. w.member) (member_at self.old id) }
        ensures next { ChangesOnly self.old self.new id None }
        ensures none { IfNone result (self.new ≡ self.old) }
        ensures order { IsInOrder self.new }
    {
        member_of(self.members.remove(&id))
    }

    /// Stops watching the member with the least ID, and gives it back with its ID. None where there
    /// are no members.
    pub fn take_first(&mut self) -> Option<(u32, M)>
        ensures some { IfSome result (λ taken. (interest : ℕ)
            × (self.old ≡ (taken.0, record { interest = interest; member = taken.1 }) ∷ self.new)) }
        ensures none { IfNone result (self.old ≡ []) }
        ensures kept { IfNone result (self.new ≡ []) }
    {
        match self.members.pop_first() {
            Some((id, first)) => Some((id, first.member)),
            None => None,
        }
    }

    /// Asks each member once, and appends those that are ready in order of ID, each with its whole
    /// answer. The result is how many these are. After an error `into` is as before.
    pub fn ready(&mut self, into: &mut Vec<(u32, u8)>) -> Result<usize, OutOfMemory>
        ensures asked { AllAsked M.asked self.old self.new }
        ensures ok { OnOk result (into.new.items ≡ into.old.items ++ ready_of M.answer self.new) }
        ensures value { IfOk result (λ n. n ≡ length (ready_of M.answer self.new)) }
        ensures err { OnErr result (into.new.items ≡ into.old.items) }
        ensures order { IsInOrder self.new }
    {
        ask_all(&mut self.members);
        append_ready(&self.members, into)
    }
}
