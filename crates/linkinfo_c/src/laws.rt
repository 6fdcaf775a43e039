//! Laws of several calls, each the contract of a function without code of its own.

ghost use Rattle.std.specs.Prelude.{◌≡◌, ℕ, List, length, map};
ghost use Rattle.linkinfo_messages.specs.declared.error.MessageError.{MessageError};
ghost use Rattle.linkinfo_messages.specs.ErrorTexts.{message_error_text};
ghost use Rattle.linkinfo_messages.specs.Resuming.{each_in};
ghost use Rattle.linkinfo_messages.specs.Walks.{links_from};
ghost use Rattle.linkinfo_c.specs.Messages.{
  calls_from,
  link_record,
  message_record,
  message_text_of,
};

use linkinfo_messages::laws::resumed;

/// Calls of `linkinfo_next_link`, the first with any cursor and each other one with `next` of the
/// result before it, return the items that one iterator yields from there on, in order, each once:
/// the link messages, and the error, if there is one. After the last item each call returns the
/// end.
pub fn next_links()
    ensures { (n : ℕ) (s : List ℕ) (cursor : ℕ) → calls_from n s cursor
        ≡ map (link_record (length s)) (each_in n s (links_from s cursor)) }
{
    resumed();
}

/// The sentence of the record of an error is that of the error.
pub fn message_sentences()
    ensures { (e : MessageError) → message_text_of (message_record e) e.place
        ≡ message_error_text e }
{}
