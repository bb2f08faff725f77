//! The words that begin a link set's own commands.
ghost use Rattle.std.specs.Prelude.{◌≡◌};
ghost use Rattle.script_links.specs.GroupCommands.{group_verb_of, group_word_of};

/// A command of one word.
#[derive(Clone, Copy, PartialEq, Eq, Debug)]
pub enum GroupWord {
    /// `fail`: the link fails.
    Fail,
    /// `retrieve`: retrieves the link's messages.
    Retrieve,
    /// `abandon`: drops the sent messages and retrieves the others.
    Abandon,
    /// `divert`: sends the retrieved messages on other links.
    Divert,
    /// `rebalance`: distributes all selections anew.
    Rebalance,
    /// `table`: prints the link of each selection.
    Table,
    /// `held`: prints how many messages the link holds.
    Held,
    /// `unsure`: prints how many of its messages may or may not have arrived.
    Unsure,
    /// `link`: prints the state of the link.
    Link,
}

/// The kind of a command with one more word.
#[derive(Clone, Copy, PartialEq, Eq, Debug)]
pub enum GroupVerb {
    /// `on`.
    On,
    /// `send`.
    Send,
    /// `bound`.
    Bound,
    /// `message`.
    Message,
    /// `admit`.
    Admit,
}

/// The command that a word is; the case of letters matters.
pub fn group_word_in(word: &str) -> Option<GroupWord>
    ensures { result ≡ group_word_of word.now }
{
    match word {
        "fail" => Some(GroupWord::Fail),
        "retrieve" => Some(GroupWord::Retrieve),
        "abandon" => Some(GroupWord::Abandon),
        "divert" => Some(GroupWord::Divert),
        "rebalance" => Some(GroupWord::Rebalance),
        "table" => Some(GroupWord::Table),
        "held" => Some(GroupWord::Held),
        "unsure" => Some(GroupWord::Unsure),
        "link" => Some(GroupWord::Link),
        _ => None,
    }
}

/// The command that a word begins; the case of letters matters.
pub fn group_verb_in(word: &str) -> Option<GroupVerb>
    ensures { result ≡ group_verb_of word.now }
{
    match word {
        "on" => Some(GroupVerb::On),
        "send" => Some(GroupVerb::Send),
        "bound" => Some(GroupVerb::Bound),
        "message" => Some(GroupVerb::Message),
        "admit" => Some(GroupVerb::Admit),
        _ => None,
    }
}
