// A member beside its last answer, asking all members, and telling those that are ready.

ghost use Rattle.std.specs.Prelude.{◌≡◌, ◌++◌, length, IfOk, OnOk, OnErr};
ghost use Rattle.std.specs.Option.{option_map};
ghost use Rattle.udt_epoll.specs.Members.{IsInOrder};
ghost use Rattle.udt_epoll.specs.Ready.{ready_of, AllAsked};
ghost use Rattle.udt_epoll.specs.Inside.{listed, AnswersStand};

use crate::looks::Looks;
use std::collections::BTreeMap;

/// Memory ran out.
#[derive(Clone, Copy, Debug, PartialEq, Eq)]
pub struct OutOfMemory;

/// A member, the bits that it is watched for, and the answer that it gave last.
#[derive(Drop)]
pub(crate) struct Watched<M> {
    pub(crate) interest: u8,
    pub(crate) answer: u8,
    pub(crate) member: M,
}

// The member alone.
pub(crate) fn member_of<M>(watched: Option<Watched<M>>) -> Option<M>
    ensures { result ≡ option_map (λ w. w.member) watched }
{
    match watched {
        Some(watched) => Some(watched.member),
        None => None,
    }
}

// Asks each member once, and keeps its answer.
pub(crate) fn ask_all<M: Looks>(members: &mut BTreeMap<u32, Watched<M>>)
    ensures asked { AllAsked M.asked (listed members.old.entries) (listed members.new.entries) }
    ensures answers { AnswersStand M.answer members.new.entries }
    ensures order { IsInOrder (listed members.new.entries) }
{
    members.retain(|_, watched| {
        watched.answer = watched.member.bits();
        true
    });
}

// Appends the members whose kept answers meet their interests.
pub(crate) fn append_ready<M: Looks>(
    members: &BTreeMap<u32, Watched<M>>,
    into: &mut Vec<(u32, u8)>,
) -> Result<usize, OutOfMemory>
    requires { AnswersStand M.answer members.now.entries }
    ensures ok { OnOk result (into.new.items
        ≡ into.old.items ++ ready_of M.answer (listed members.now.entries)) }
    ensures value { IfOk result (λ n. n ≡ length (ready_of M.answer (listed members.now.entries))) }
    ensures err { OnErr result (into.new.items ≡ into.old.items) }
{
    let before = into.len();
    for (id, watched) in members {
        if watched.answer & watched.interest != 0 && into.push((*id, watched.answer)).is_err() {
            into.truncate(before);
            return Err(OutOfMemory);
        }
    }
    Ok(into.len() - before)
}
