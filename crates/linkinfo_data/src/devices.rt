//! Data of ipvlan, ipvtap, macvlan, macvtap, vrf, ipoib, xfrm, macsec and rmnet links.

ghost use Rattle.linkinfo_data.specs.Layered.{layer_types};
ghost use Rattle.linkinfo_data.specs.DeviceData.{devices_data_of, devices_known};

use crate::ask::Ask;
use crate::calls::{ask, read};
use crate::info_data::InfoDataOf;
use crate::payload_family::PayloadFamily;
use linkinfo_table::LinkLayer;
use nla_frame::{DecodeError, ExactEq, HeaderCount};
use std::alloc::Global;

/// The families of data of ipvlan, ipvtap, macvlan, macvtap, vrf, ipoib, xfrm, macsec and rmnet
/// links.
#[derive(Clone, Copy, Debug, PartialEq, Eq)]
pub enum DeviceFamily {
    // Begin: written by tables/generate from tables/kinds (variants).
    /// Attributes of `ipvlan` links (`IFLA_IPVLAN_*`).
    IpVlan,
    /// Attributes of `ipvtap` links (`IFLA_IPVLAN_*`).
    IpVtap,
    /// Attributes of `macvlan` links (`IFLA_MACVLAN_*`), with the number of lists of them around
    /// these: 0 for those directly in the data.
    MacVlan(u8),
    /// Attributes of `macvtap` links (`IFLA_MACVLAN_*`), with the number of lists of them around
    /// these: 0 for those directly in the data.
    MacVtap(u8),
    /// Attributes of `vrf` links (`IFLA_VRF_*`).
    Vrf,
    /// Attributes of `ipoib` links (`IFLA_IPOIB_*`).
    Ipoib,
    /// Attributes of `xfrm` links (`IFLA_XFRM_*`).
    Xfrm,
    /// Attributes of `macsec` links (`IFLA_MACSEC_*`).
    MacSec,
    /// Attributes of `rmnet` links (`IFLA_RMNET_*`).
    RmNet,
    // End: written by tables/generate.
}

impl ExactEq for DeviceFamily {
    ghost use Rattle.std.proofs.Common.{rules};

    ghost exact = { Prim.search rules };
}

/// Matches a family of devices, and expands `$call!`, of `calls`, for its data.
macro_rules! of_device {
    ($layer:ty, $family:expr, $call:ident $given:tt) => {
        match $family {
            // Begin: written by tables/generate from tables/kinds (calls).
            DeviceFamily::IpVlan => {
                $call!(list(InfoDataOf::IpVlan, linkinfo_devices::InfoIpVlan, ()) $given)
            }
            DeviceFamily::IpVtap => {
                $call!(list(InfoDataOf::IpVtap, linkinfo_devices::InfoIpVtap, ()) $given)
            }
            DeviceFamily::MacVlan(n) => {
                $call!(list(InfoDataOf::MacVlan, linkinfo_devices::InfoMacVlan, n) $given)
            }
            DeviceFamily::MacVtap(n) => {
                $call!(list(InfoDataOf::MacVtap, linkinfo_devices::InfoMacVtap, n) $given)
            }
            DeviceFamily::Vrf => {
                $call!(list(InfoDataOf::Vrf, linkinfo_devices::InfoVrf, ()) $given)
            }
            DeviceFamily::Ipoib => {
                $call!(list(InfoDataOf::Ipoib, linkinfo_devices::InfoIpoib, ()) $given)
            }
            DeviceFamily::Xfrm => {
                $call!(list(InfoDataOf::Xfrm, linkinfo_devices::InfoXfrm, ()) $given)
            }
            DeviceFamily::MacSec => {
                $call!(list(InfoDataOf::MacSec, linkinfo_devices::InfoMacSec, ()) $given)
            }
            DeviceFamily::RmNet => {
                $call!(list(InfoDataOf::RmNet, linkinfo_devices::InfoRmNet, ()) $given)
            }
            // End: written by tables/generate.
        }
    };
}

impl<P: LinkLayer> PayloadFamily<P> for DeviceFamily {
    type Data = InfoDataOf<P>;

    ghost data_of = { devices_data_of (layer_types P P.Peer P.Bond P.Bridge P.Vlan P.Can P.Hsr
        P.Dsa P.Tun P.BondPort P.BridgePort) };

    ghost known = { devices_known (layer_types P P.Peer P.Bond P.Bridge P.Vlan P.Can P.Hsr
        P.Dsa P.Tun P.BondPort P.BridgePort) };

    #[inline(always)]
    fn read(
        self,
        alloc: Global,
        payload: &[u8],
        count: &mut HeaderCount,
    ) -> Result<InfoDataOf<P>, DecodeError> {
        of_device!(P, self, read(alloc, payload, count))
    }

    #[inline(always)]
    fn ask<Q: Ask>(self, question: Q, count: &mut HeaderCount, buffer: &mut [u8]) -> Q::Answer {
        of_device!(P, self, ask(question, count, buffer))
    }
}
