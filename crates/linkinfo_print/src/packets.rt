//! What is printed for a message or a packet.

ghost use Rattle.std.specs.Prelude.{
  ◌≡◌,
  ◌≤◌,
  [],
  ◌∷◌,
  false,
  IfSome,
  Ok,
  Err,
  OnOk,
  Some,
  option_map,
};
ghost use Rattle.serde_json.specs.Data.{depth};
ghost use Rattle.serde_json.specs.View.{view};
ghost use Rattle.serde_json.specs.Written.{has_float};
ghost use Rattle.linkinfo_messages.specs.Captures.{netlink_of, record_in, records};
ghost use Rattle.linkinfo_messages.specs.ErrorTexts.{capture_error_text, message_error_text};
ghost use Rattle.linkinfo_messages.specs.Views.{link_in};
ghost use Rattle.linkinfo_print.specs.Printing.{Answer, breaking, refusal};
ghost use Rattle.linkinfo_print.specs.Sentences.{
  capture_error_from,
  message_error_from,
  numbered,
};
ghost use Rattle.linkinfo_print.specs.UnitAnswers.{
  AreMessageAnswers,
  AreNumbered,
  ArePacketAnswers,
  AreRecordsAnswers,
  IsContentsAnswer,
  IsLinkAnswer,
  Prints,
  PrintsSuch,
  link_data,
  with_number,
};

use crate::list::{ListError, list_json};
use crate::message::{message_json, time_text};
use crate::print::Printer;
use crate::report::Printed;
use linkinfo_messages::{
    CaptureError, CaptureFormat, LinkContents, LinkMessage, LinkMessages, MessageCause,
    MessageError, Record,
};
use serde_json::Value;
use std::alloc::AllocError;
use std::fmt;

/// Where the netlink messages of a record begin: after the header of the record and that of the
/// packet.
const MESSAGES_OFFSET: usize = 32;

/// Which list it is that has an error: that of a link in a message.
#[derive(Clone, Copy)]
struct ListOfLink<'a> {
    link: &'a LinkMessage<'a>,
    /// The offset of the list in the input.
    place: usize,
}

/// Writes the beginning of a sentence: `interface 5: IFLA_LINKINFO at offset 48: `.
impl<'a> fmt::Display for ListOfLink<'a> {
    ghost use Rattle.std.specs.Prelude.{Some};
    ghost use Rattle.linkinfo_print.specs.Sentences.{list_of_link};

    ghost output = { λ list. Some (list_of_link list.link.now.index list.place) };

    fn fmt<W: fmt::Write>(&self, f: &mut fmt::Formatter<W>) -> fmt::Result {
        let index = self.link.index;
        let place = self.place;
        write!(f, "interface {index}: IFLA_LINKINFO at offset {place}: ")
    }
}

impl Printer {
    /// Prints the records in these bytes, which begin at an offset of the input.
    pub(crate) fn print_records(
        &mut self,
        number: u64,
        place: usize,
        format: CaptureFormat,
        bytes: &[u8],
    ) -> Result<(), AllocError>
        ensures { OnOk result (PrintsSuch self.old
            (AreNumbered self.old.options.input number
            (AreRecordsAnswers place (records format 0 bytes.now))) self.new) }
    {
        let mut records = format.records(bytes);
        while let Some(record) = records.next() {
            match record {
                Ok(record) => self.print_record(number, place, &record)?,
                Err(error) => self.refuse_record(number, place, error)?,
            }
        }
        Ok(())
    }

    /// Prints the link messages in a record of bytes that begin at an offset of the input.
    fn print_record(
        &mut self,
        number: u64,
        place: usize,
        packet: &Record<'_>,
    ) -> Result<(), AllocError>
        ensures { OnOk result (PrintsSuch self.old
            (AreNumbered self.old.options.input number
            (ArePacketAnswers place (record_in packet.now)
            (netlink_of (record_in packet.now)))) self.new) }
    {
        match packet.messages() {
            Ok(Some(bytes)) => {
                let place = place
                    .saturating_add(packet.place)
                    .saturating_add(MESSAGES_OFFSET);
                let time = Some((packet.seconds, packet.nanoseconds));
                self.print_messages(number, bytes, place, time)
            }
            Ok(None) => Ok(()),
            Err(error) => self.refuse_record(number, place, error),
        }
    }

    /// Notes the error of a record in bytes that begin at an offset of the input.
    fn refuse_record(
        &mut self,
        number: u64,
        place: usize,
        error: CaptureError,
    ) -> Result<(), AllocError>
        ensures { OnOk result (Prints self.old
            (Err (refusal (numbered self.old.options.input number
            (capture_error_text (capture_error_from place error)))) ∷ []) self.new) }
    {
        let error = CaptureError {
            place: place.saturating_add(error.place),
            cause: error.cause,
        };
        self.refuse(number, error)
    }

    /// Prints the link messages in these bytes, which begin at an offset of the input.
    pub(crate) fn print_messages(
        &mut self,
        number: u64,
        bytes: &[u8],
        place: usize,
        time: Option<(u32, u64)>,
    ) -> Result<(), AllocError>
        ensures { OnOk result (PrintsSuch self.old
            (AreNumbered self.old.options.input number
            (AreMessageAnswers place time bytes.now)) self.new) }
    {
        let mut links = LinkMessages::new(bytes);
        while let Some(link) = links.next() {
            match link {
                Ok(link) => self.print_link(number, &link, place, time)?,
                Err(error) => self.refuse_message(number, error, place)?,
            }
        }
        Ok(())
    }

    /// Notes the error of a message in bytes that begin at an offset of the input.
    pub(crate) fn refuse_message(
        &mut self,
        number: u64,
        error: MessageError,
        place: usize,
    ) -> Result<(), AllocError>
        ensures { OnOk result (Prints self.old
            (Err (breaking (numbered self.old.options.input number
            (message_error_text (message_error_from place error)))) ∷ []) self.new) }
    {
        let cause = match error.cause {
            MessageCause::Attribute(at) => MessageCause::Attribute(place.saturating_add(at)),
            cause => cause,
        };
        let error = MessageError {
            place: place.saturating_add(error.place),
            cause,
        };
        self.refuse_as(number, true, error)
    }

    /// Prints a link of messages that begin at an offset of the input.
    fn print_link(
        &mut self,
        number: u64,
        link: &LinkMessage<'_>,
        place: usize,
        time: Option<(u32, u64)>,
    ) -> Result<(), AllocError>
        ensures { OnOk result ((answer : Answer)
            × IsLinkAnswer place time (Ok (link_in link.now)) answer
            × Prints self.old (with_number self.old.options.input number answer ∷ []) self.new) }
    {
        match link.info {
            Some(info) => self.print_contents(number, link, info, place, time),
            None => self.print_message(link, None, time),
        }
    }

    /// Prints a link with these contents of its `IFLA_LINKINFO`.
    fn print_contents(
        &mut self,
        number: u64,
        link: &LinkMessage<'_>,
        info: LinkContents<'_>,
        place: usize,
        time: Option<(u32, u64)>,
    ) -> Result<(), AllocError>
        ensures { OnOk result ((answer : Answer)
            × IsContentsAnswer place time (link_in link.now)
            (Some (info.entry.place, info.entry.bytes.now)) answer
            × Prints self.old (with_number self.old.options.input number answer ∷ []) self.new) }
    {
        match list_json(self.alloc, info.bytes) {
            Ok(list) => self.print_message(link, Some(list), time),
            Err(ListError::Memory) => Err(AllocError),
            Err(ListError::Rejected(at)) => {
                let place = place.saturating_add(info.place);
                self.refuse_list(number, ListOfLink { link, place }, at)
            }
        }
    }

    /// Prints the object of a link with this list.
    fn print_message(
        &mut self,
        link: &LinkMessage<'_>,
        list: Option<Value>,
        time: Option<(u32, u64)>,
    ) -> Result<(), AllocError>
        requires shallow { IfSome list (λ v. depth (view v) ≤ 5) }
        requires whole_numbers { IfSome list (λ v. has_float (view v) ≡ false) }
        ensures { OnOk result (Prints self.old
            (Ok (Printed.Message, link_data time (link_in link.now) (option_map view list)) ∷ [])
            self.new) }
    {
        let time = time_text(self.alloc, time)?;
        let message = message_json(self.alloc, link, list, time)?;
        self.report.print(self.alloc, Printed::Message, &message)
    }
}
