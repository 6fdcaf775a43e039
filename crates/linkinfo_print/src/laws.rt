//! Laws of what is printed. They have no code: their contracts are what they are there for.

ghost use Rattle.std.specs.Prelude.{IfSome, List, Option, option_map, ℕ, ℤ};
ghost use Rattle.nla_frame.specs.Attribute.{IsBytes};
ghost use Rattle.linkinfo_messages.specs.declared.link.LinkEvent.{LinkEvent};
ghost use Rattle.linkinfo_view.specs.Printable.{IsPrintable};
ghost use Rattle.linkinfo_print.specs.Laws.{HasEach, KeepsOthers, KeepsShown, PrintsUnchanged};
ghost use Rattle.linkinfo_print.specs.ListData.{list_data};
ghost use Rattle.linkinfo_print.specs.MessageData.{message_data, time_text};
ghost use Rattle.linkinfo_print.specs.PairData.{pair_data};
ghost use Rattle.linkinfo_print.specs.declared.compare.Pair.{Pair};
ghost use Rattle.linkinfo_print.specs.declared.compare.Question.{Question};
ghost use Rattle.linkinfo_print.specs.declared.report.Printed.{Printed};
ghost use Rattle.linkinfo_print.specs.declared.report.Printed.TheVariants as printed;
ghost use Rattle.serde_json.specs.Data.{Data};

/// No attribute of a list is hidden in its object. The last one of a type with a name is the member
/// of that name, and every other is in the array `others`, in order. These are all attributes of an
/// accepted list, and of any other those before its first error.
pub fn nothing_hidden()
    ensures each { (s : List ℕ) → HasEach s }
    ensures shown { (s : List ℕ) → KeepsShown s }
    ensures others { (s : List ℕ) → KeepsOthers s }
{}

/// What is printed is printable ASCII and line feeds, as JSON and as text, so that
/// `Report::print` writes it unchanged: of data whose texts are printable, and so of each list, of
/// each pair of two lists, and of each message with the time of its packet.
pub fn printable()
    ensures data { (what : Printed) (d : Data) → IsPrintable d → PrintsUnchanged what d }
    ensures list { (s : List ℕ) → IsBytes s → PrintsUnchanged printed.List (list_data s) }
    ensures pair { (q : Question) (a b : List ℕ) (pair : Option Pair) → IsBytes a → IsBytes b →
        PrintsUnchanged printed.Pair (pair_data q a b pair) }
    ensures message { (event : LinkEvent) (flags : ℕ) (index : ℤ) (name list : Option (List ℕ))
        (time : Option (ℕ × ℕ)) → IfSome list IsBytes →
        PrintsUnchanged printed.Message
        (message_data event flags index name (option_map list_data list)
        (option_map time_text time)) }
{}
