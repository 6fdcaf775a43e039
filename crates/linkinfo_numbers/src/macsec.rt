// Written by tables/generate from tables/numbers/macsec.
//! MACsec links.

ghost use Rattle.std.specs.Prelude.{◌≡◌};

use crate::by_values::{number_of_value, value_of_number};
use nla_frame::ExactEq;

/// The cipher suite of a MACsec interface: `IFLA_MACSEC_CIPHER_SUITE`, a little-endian 64-bit
/// number (include/uapi/linux/if_macsec.h).
#[derive(Clone, Copy, Debug, PartialEq, Eq)]
pub enum MacSecCipherId {
    /// `MACSEC_DEFAULT_CIPHER_ID`: the default cipher suite, GCM-AES-128.
    DefaultGcmAes128,
    /// `MACSEC_CIPHER_ID_GCM_AES_128`: GCM-AES-128.
    GcmAes128,
    /// `MACSEC_CIPHER_ID_GCM_AES_256`: GCM-AES-256.
    GcmAes256,
    /// `MACSEC_CIPHER_ID_GCM_AES_XPN_128`: GCM-AES-XPN-128, with extended packet numbers.
    GcmAesXpn128,
    /// `MACSEC_CIPHER_ID_GCM_AES_XPN_256`: GCM-AES-XPN-256, with extended packet numbers.
    GcmAesXpn256,
    /// Any number without a name.
    Other(u64),
}

macro_rules! ciphers {
    ($body:ident $given:tt) => {
        $body! { MacSecCipherId $given;
            (DefaultGcmAes128, 0x0080_0200_0100_0001),
            (GcmAes128, 0x0080_C200_0100_0001),
            (GcmAes256, 0x0080_C200_0100_0002),
            (GcmAesXpn128, 0x0080_C200_0100_0003),
            (GcmAesXpn256, 0x0080_C200_0100_0004),
        }
    };
}

impl From<u64> for MacSecCipherId {
    ghost use Rattle.linkinfo_numbers.specs.Macsec.{mac_sec_cipher_id};

    ghost from_gives = { λ number cipher. cipher ≡ mac_sec_cipher_id number };

    fn from(number: u64) -> MacSecCipherId {
        ciphers!(value_of_number number)
    }
}

impl From<MacSecCipherId> for u64 {
    ghost use Rattle.linkinfo_numbers.specs.Macsec.{mac_sec_cipher_id_number};

    ghost from_gives = { λ cipher number. number ≡ mac_sec_cipher_id_number cipher };

    fn from(cipher: MacSecCipherId) -> u64 {
        ciphers!(number_of_value cipher)
    }
}

impl ExactEq for MacSecCipherId {
    ghost use Rattle.std.proofs.Common.{rules};

    ghost exact = { Prim.search rules };
}

/// How a MACsec interface validates frames: `IFLA_MACSEC_VALIDATION`, one byte
/// (include/uapi/linux/if_link.h).
#[derive(Clone, Copy, Debug, PartialEq, Eq)]
pub enum MacSecValidate {
    /// `MACSEC_VALIDATE_DISABLED`: frames are not validated.
    Disabled,
    /// `MACSEC_VALIDATE_CHECK`: invalid frames are counted, and accepted if possible.
    Check,
    /// `MACSEC_VALIDATE_STRICT`: invalid frames are dropped.
    Strict,
    /// Any number without a name.
    Other(u8),
}

macro_rules! validations {
    ($body:ident $given:tt) => {
        $body! { MacSecValidate $given;
            (Disabled, 0),
            (Check, 1),
            (Strict, 2),
        }
    };
}

impl From<u8> for MacSecValidate {
    ghost use Rattle.linkinfo_numbers.specs.Macsec.{mac_sec_validate};

    ghost from_gives = { λ number validation. validation ≡ mac_sec_validate number };

    fn from(number: u8) -> MacSecValidate {
        validations!(value_of_number number)
    }
}

impl From<MacSecValidate> for u8 {
    ghost use Rattle.linkinfo_numbers.specs.Macsec.{mac_sec_validate_number};

    ghost from_gives = { λ validation number. number ≡ mac_sec_validate_number validation };

    fn from(validation: MacSecValidate) -> u8 {
        validations!(number_of_value validation)
    }
}

impl ExactEq for MacSecValidate {
    ghost use Rattle.std.proofs.Common.{rules};

    ghost exact = { Prim.search rules };
}

/// What MACsec processing is offloaded to hardware: `IFLA_MACSEC_OFFLOAD`, one byte
/// (include/uapi/linux/if_link.h).
#[derive(Clone, Copy, Debug, PartialEq, Eq)]
pub enum MacSecOffload {
    /// `MACSEC_OFFLOAD_OFF`: nothing is offloaded.
    Off,
    /// `MACSEC_OFFLOAD_PHY`: offloaded to the PHY.
    Phy,
    /// `MACSEC_OFFLOAD_MAC`: offloaded to the MAC.
    Mac,
    /// Any number without a name.
    Other(u8),
}

macro_rules! offloads {
    ($body:ident $given:tt) => {
        $body! { MacSecOffload $given;
            (Off, 0),
            (Phy, 1),
            (Mac, 2),
        }
    };
}

impl From<u8> for MacSecOffload {
    ghost use Rattle.linkinfo_numbers.specs.Macsec.{mac_sec_offload};

    ghost from_gives = { λ number offload. offload ≡ mac_sec_offload number };

    fn from(number: u8) -> MacSecOffload {
        offloads!(value_of_number number)
    }
}

impl From<MacSecOffload> for u8 {
    ghost use Rattle.linkinfo_numbers.specs.Macsec.{mac_sec_offload_number};

    ghost from_gives = { λ offload number. number ≡ mac_sec_offload_number offload };

    fn from(offload: MacSecOffload) -> u8 {
        offloads!(number_of_value offload)
    }
}

impl ExactEq for MacSecOffload {
    ghost use Rattle.std.proofs.Common.{rules};

    ghost exact = { Prim.search rules };
}
