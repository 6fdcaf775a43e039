//! Laws of messages and captures, each the contract of a function without code.

ghost use Rattle.std.specs.Prelude.{
  ◌≡◌,
  ℕ,
  ◌+◌,
  ◌<◌,
  ◌≤◌,
  ◌^◌,
  List,
  ◌∷◌,
  ◌++◌,
  length,
  map,
  take,
  drop,
  Some,
  Ok,
};
ghost use Rattle.nla_frame.specs.Attribute.{pad, aligned};
ghost use Rattle.linkinfo_messages.specs.declared.capture.CaptureFormat.{CaptureFormat};
ghost use Rattle.linkinfo_messages.specs.Captures.{RecordParts, record_at, record_len, records};
ghost use Rattle.linkinfo_messages.specs.Links.{links_of};
ghost use Rattle.linkinfo_messages.specs.Messages.{
  Message,
  message_at,
  message_in,
  message_len,
  message_string,
  messages,
};
ghost use Rattle.linkinfo_messages.specs.Offsets.{
  capture_error_moved,
  error_moved,
  link_moved,
  message_moved,
  moved,
  record_moved,
};
ghost use Rattle.linkinfo_messages.specs.Reading.{joined};
ghost use Rattle.linkinfo_messages.specs.Resuming.{Advances, Continues, each_in, steps_from};
ghost use Rattle.linkinfo_messages.specs.Walks.{links_from};

/// A message that is written as the kernel writes it is the first of the messages, whatever follows
/// it, and the next one begins after its padding. Flags, sequence number and port, and the bytes of
/// the padding, have any value.
pub fn written()
    ensures { (place kind : ℕ) (middle payload padding rest : List ℕ) → kind < 2 ^ 16 →
        16 + length payload < 2 ^ 32 → length middle ≡ 10 → length padding ≡ pad (length payload) →
        messages place (message_string kind middle payload padding ++ rest)
        ≡ Ok (message_in place kind payload)
        ∷ messages (place + aligned (16 + length payload)) rest }
{}

/// A stream of messages can be read message by message. Where `message_len` returns `n` and `n`
/// bytes are there, these are one message, the same whatever follows. The messages of the stream
/// are this one and then those of the rest, which begins `n` bytes later. So are the links, unless
/// the message is rejected.
pub fn message_stream()
    ensures whole { (place n : ℕ) (s : List ℕ) → message_len s ≡ Ok (Some n) → n ≤ length s →
        (m : Message) × (message_at place (take n s) ≡ Ok (m, n)) }
    ensures same { (place n : ℕ) (s more : List ℕ) → message_len s ≡ Ok (Some n) → n ≤ length s →
        message_at place (s ++ more) ≡ message_at place (take n s) }
    ensures messages_split { (place n : ℕ) (s more : List ℕ) → message_len s ≡ Ok (Some n) →
        n ≤ length s → messages place (s ++ more)
        ≡ messages place (take n s) ++ messages (place + n) (drop n s ++ more) }
    ensures links_split { (place n : ℕ) (s more : List ℕ) → message_len s ≡ Ok (Some n) →
        n ≤ length s → links_of (messages place (s ++ more))
        ≡ joined (links_of (messages place (take n s)))
        (links_of (messages (place + n) (drop n s ++ more))) }
{}

/// A capture can be read record by record. Where `record_len` returns `n` and `n` bytes are there,
/// these are one record, the same whatever follows. The records of the stream are this one and then
/// those of the rest, which begins `n` bytes later.
pub fn record_stream()
    ensures whole { (format : CaptureFormat) (place n : ℕ) (s : List ℕ) →
        record_len format s ≡ Some n → n ≤ length s →
        (r : RecordParts) × (record_at format place (take n s) ≡ Ok (r, n)) }
    ensures same { (format : CaptureFormat) (place n : ℕ) (s more : List ℕ) →
        record_len format s ≡ Some n → n ≤ length s →
        record_at format place (s ++ more) ≡ record_at format place (take n s) }
    ensures records_split { (format : CaptureFormat) (place n : ℕ) (s more : List ℕ) →
        record_len format s ≡ Some n → n ≤ length s → records format place (s ++ more)
        ≡ records format place (take n s) ++ records format (place + n) (drop n s ++ more) }
{}

/// Bytes have the same messages and links wherever they begin, offsets aside: those of bytes that
/// begin later have greater offsets.
pub fn message_offsets()
    ensures messages_moved { (by place : ℕ) (s : List ℕ) → messages (by + place) s
        ≡ map (moved (message_moved by) (error_moved by)) (messages place s) }
    ensures links_moved { (by place : ℕ) (s : List ℕ) → links_of (messages (by + place) s)
        ≡ map (moved (link_moved by) (error_moved by)) (links_of (messages place s)) }
{}

/// Iterating over link messages can be resumed at the offset where an item ends: after a link
/// message, and at the end after an error. The items from there on are those after that item. So
/// the first items of iterators, each of which starts where the item of the one before it ends, are
/// the items of one iterator, in order, each once, and then none. The first item from an offset on
/// is at that offset or after it, and a link message takes 16 bytes or more.
pub fn resumed()
    ensures continues { (s : List ℕ) (place : ℕ) → Continues s (links_from s place) }
    ensures advances { (s : List ℕ) (place : ℕ) → Advances s place (links_from s place) }
    ensures in_order { (n : ℕ) (s : List ℕ) (place : ℕ) →
        steps_from n s place ≡ each_in n s (links_from s place) }
{}

/// Bytes have the same records wherever they begin, offsets aside.
pub fn record_offsets()
    ensures { (format : CaptureFormat) (by place : ℕ) (s : List ℕ) → records format (by + place) s
        ≡ map (moved (record_moved by) (capture_error_moved by)) (records format place s) }
{}
