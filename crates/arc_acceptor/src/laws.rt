//! What the table promises, as a call that does nothing.
ghost use Rattle.arc_acceptor.specs.Answering.{EachMessageHasOneTurn};

/// The table has one turn for each message, whatever the entries are. So a fact of every turn of the table is a fact of
/// that one.
pub fn each_message_has_one_turn()
    ensures { EachMessageHasOneTurn }
{}
