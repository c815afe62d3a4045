// What the table refuses, whatever its lines say.

ghost use Rattle.udt_words.specs.Laws.{RefusesHyphens, RefusesFiveWords};

/// Words of which one begins with a hyphen are no command, so no command has options, and none
/// asks for help or a version.
pub fn hyphens_are_refused()
    ensures { RefusesHyphens }
{}

/// More than four words are no command.
pub fn five_words_are_refused()
    ensures { RefusesFiveWords }
{}
