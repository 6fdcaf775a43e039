// Written by tables/generate from tables/macsec.
//! MACsec interfaces.

ghost use Rattle.linkinfo_devices.specs.Macsec.{mac_sec_attribute, mac_sec_keeps, mac_sec_rows};
ghost use Rattle.linkinfo_devices.specs.declared.macsec.InfoMacSec.TheVariants.{Other};
ghost use Rattle.linkinfo_table.specs.FamilyMeaning.{table_meaning, table_memory};
ghost use Rattle.linkinfo_table.specs.FamilyRowLaws.{table_flat, table_owes};
ghost use Rattle.linkinfo_table.specs.FamilyRows.{table_row};
ghost use Rattle.nla_frame.specs.declared.error.Family.TheVariants as family;
ghost use Rattle.std.specs.Prelude.{◌≡◌, false, refl};

use linkinfo_numbers::{MacSecCipherId, MacSecOffload, MacSecValidate};
use linkinfo_table::{
    Decoded, Encodable, Lookup, RowFamily, Slot, TableFamily, clone_by_rows, encodable_by_rows,
    row_emit_payload, row_emit_value, row_fit_len, row_kind, row_read, row_value_len,
    store_by_rows, table_lookup,
};
use nla_frame::{DecodeError, DefaultNla, ExactEq, Family, Nla, NlaBuffer, Parseable};
use std::alloc::{AllocError, Global};

/// An attribute in the data of a `macsec` link, an IEEE 802.1AE MACsec interface
/// (include/uapi/linux/if_link.h).
#[derive(Debug, PartialEq, Eq, Drop)]
pub enum InfoMacSec {
    /// SCI, the secure channel identifier (`IFLA_MACSEC_SCI`), 64 bits, read as little-endian
    /// although the kernel writes it in network byte order.
    Sci(u64),
    /// Port component of the SCI (`IFLA_MACSEC_PORT`), big-endian.
    Port(u16),
    /// Length of the integrity check value (ICV) in bytes (`IFLA_MACSEC_ICV_LEN`), one byte.
    IcvLen(u8),
    /// Cipher suite (`IFLA_MACSEC_CIPHER_SUITE`), little-endian.
    CipherSuite(MacSecCipherId),
    /// Replay window in frames (`IFLA_MACSEC_WINDOW`), little-endian.
    Window(u32),
    /// Secure association used for transmission (`IFLA_MACSEC_ENCODING_SA`), one byte.
    EncodingSa(u8),
    /// Whether frames are encrypted (`IFLA_MACSEC_ENCRYPT`), one byte.
    Encrypt(u8),
    /// Whether frames are protected (`IFLA_MACSEC_PROTECT`), one byte.
    Protect(u8),
    /// Whether the SCI is sent in every frame (`IFLA_MACSEC_INC_SCI`), one byte.
    IncSci(u8),
    /// Whether the end station bit is set (`IFLA_MACSEC_ES`), one byte.
    Es(u8),
    /// Whether the single copy broadcast bit is set (`IFLA_MACSEC_SCB`), one byte.
    Scb(u8),
    /// Whether replay protection is enabled (`IFLA_MACSEC_REPLAY_PROTECT`), one byte.
    ReplayProtect(u8),
    /// Validation of incoming frames (`IFLA_MACSEC_VALIDATION`), one byte.
    Validation(MacSecValidate),
    /// Hardware offload (`IFLA_MACSEC_OFFLOAD`), one byte.
    Offload(MacSecOffload),
    /// An opaque attribute, of a type that has no variant here, kept verbatim.
    Other(DefaultNla),
}

macro_rules! rows {
    ($body:ident $given:tt) => {
        $body! { InfoMacSec $given;
            (1, le64, Sci),
            (2, be16, Port),
            (3, u8, IcvLen),
            (4, le64, CipherSuite as MacSecCipherId),
            (5, le32, Window),
            (6, u8, EncodingSa),
            (7, u8, Encrypt),
            (8, u8, Protect),
            (9, u8, IncSci),
            (10, u8, Es),
            (11, u8, Scb),
            (12, u8, ReplayProtect),
            (13, u8, Validation as MacSecValidate),
            (15, u8, Offload as MacSecOffload),
        }
    };
}

/// A clone is equal to its source.
impl Clone for InfoMacSec {
    ghost is_clone = { λ source copy. copy ≡ source };

    fn clone(&self) -> Result<InfoMacSec, AllocError> {
        rows!(clone_by_rows self)
    }
}

impl RowFamily for InfoMacSec {
    type Context = ();

    const FAMILY: Family = Family::MacSec;

    ghost FAMILY = { family.MacSec };

    ghost rows = { λ _ n. table_row mac_sec_rows n };

    ghost other = { λ nla. Other nla };

    ghost canonical = { mac_sec_attribute };

    ghost is_custom = { λ _. false };

    ghost owes = { λ _ n. table_owes mac_sec_attribute mac_sec_rows mac_sec_keeps n };

    ghost keeps_other = { λ _. refl };

    #[tactic(auto, using(linkinfo_table::specs::FamilyRowLaws::table_lookup))]
    #[inline(always)]
    fn shape(_ctx: (), kind: u16) -> Lookup {
        table_lookup(Self::FAMILY, kind)
    }

    #[inline(always)]
    fn store_decoded<P: Slot<InfoMacSec>>(
        slot: &mut P,
        alloc: Global,
        _ctx: (),
        decoded: Decoded<'_>,
    ) -> Result<(), AllocError> {
        rows!(store_by_rows(slot, alloc, decoded))
    }

    #[inline(always)]
    fn to_encodable(&self) -> Encodable<'_> {
        rows!(encodable_by_rows self)
    }
}

impl TableFamily for InfoMacSec {
    type Custom = ();

    const IS_SET: bool = false;

    ghost IS_SET = { false };

    ghost flat_elsewhere = { λ _ n _. table_flat mac_sec_attribute mac_sec_rows mac_sec_keeps n };

    ghost plain_elsewhere = { λ _ _. refl };

    ghost written = { λ _. refl };
}

impl Nla for InfoMacSec {
    ghost attribute = { mac_sec_attribute };

    fn value_len(&self) -> usize {
        row_value_len(self)
    }

    fn kind(&self) -> u16 {
        row_kind(self)
    }

    fn emit_value(&self, buffer: &mut [u8]) {
        row_emit_value(self, buffer);
    }

    fn emit_payload(&self, buffer: &mut [u8]) -> usize {
        row_emit_payload(self, buffer)
    }

    fn fit_len(&self) -> Option<usize> {
        row_fit_len(self)
    }
}

/// Reads the attribute. A payload of invalid length is rejected as `(MacSec, type, Length)`.
impl<'a> Parseable<NlaBuffer<'a>> for InfoMacSec {
    ghost meaning = { table_meaning family.MacSec (λ d. Other d) mac_sec_rows };

    ghost needs_memory = { table_memory mac_sec_rows };

    fn parse(alloc: Global, buffer: &NlaBuffer<'a>) -> Result<InfoMacSec, DecodeError> {
        row_read(alloc, buffer, ())
    }
}

impl ExactEq for InfoMacSec {
    ghost use Rattle.std.proofs.lemmas.Bool.Decides.{Decides-eqb};
    ghost use Rattle.nla_frame.specs.Derived.{derived_decides, one_field};
    ghost use Rattle.nla_frame.specs.Pairs.{◌&◌};
    ghost use Rattle.linkinfo_numbers.specs.contracts.macsec.MacSecCipherIdExactEq.TheImpl.Laws.{
      exact-law as cipher_exact,
    };
    ghost use Rattle.linkinfo_numbers.specs.contracts.macsec.MacSecValidateExactEq.TheImpl.Laws.{
      exact-law as validation_exact,
    };
    ghost use Rattle.linkinfo_numbers.specs.contracts.macsec.MacSecOffloadExactEq.TheImpl.Laws.{
      exact-law as offload_exact,
    };
    ghost use Rattle.nla_frame.specs.contracts.default_nla.DefaultNlaExactEq.TheImpl.Laws.{
      exact-law as kept_exact,
    };
    ghost use Rattle.linkinfo_devices.specs.contracts.macsec.InfoMacSec.{enum};

    ghost exact = { let number = one_field Decides-eqb in
        let cipher = one_field cipher_exact in
        let validation = one_field validation_exact in
        let offload = one_field offload_exact in
        let kept = one_field kept_exact in
        derived_decides enum _
        (number
        & number
        & number
        & cipher
        & number
        & number
        & number
        & number
        & number
        & number
        & number
        & number
        & validation
        & offload
        & kept
        & tt) };
}
