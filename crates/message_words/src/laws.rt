//! What is written is said, and what is said is answered.

ghost use Rattle.std.specs.Prelude.{◌≡◌, ◌++◌, ℕ, List, true};
ghost use Rattle.pcep_messages.specs.Messages.{message_in};
ghost use Rattle.pcep_messages.specs.Normal.{IsNormal};
ghost use Rattle.pcep_messages.specs.Spelling.{is_written, fits, written};
ghost use Rattle.pcep_messages.specs.declared.message.Message.{Message};
ghost use Rattle.message_words.specs.Messages.{words_of};
ghost use Rattle.message_words.specs.Faults.{Says};
ghost use Rattle.message_words.specs.Answers.{IsAnswered};
ghost use Rattle.pcep_messages.specs.declared.fault.MessageFault.{MessageFault};

use pcep_messages::messages_are_read_again;

/// Shows that the words for the bytes of a written message are the message's words.
pub fn what_is_written_is_said()
    ensures { (message : Message) (old new : List ℕ) → is_written message ≡ true → IsNormal message → fits message ≡ true
        → Says (written message) (message_in (written message)) old new → new ≡ old ++ words_of message }
{
    messages_are_read_again();
}

/// Shows that the answer that is said for a fault is that of an open session's table.
pub fn what_is_said_is_answered()
    ensures { (fault : MessageFault) → IsAnswered fault }
{}
