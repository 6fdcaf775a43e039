//! The row of each type, by table.

ghost use Rattle.std.specs.Prelude.{◌≡◌, option_map};
ghost use Rattle.linkinfo_view.specs.Lines.{line_of, slice_lines};
ghost use Rattle.linkinfo_view.specs.Table.{family_rows, found, own_rows, row_of, shared_rows};

// Begin: written by tables/generate from tables/families (imports).
use crate::entries::{
    AMT, BARE_UDP, BAT_ADV, BOND, BOND_AD_INFO, BOND_PORT, BRIDGE, BRIDGE_PORT,
    BRIDGE_QUERIER_STATE, CAN, CAN_CTRL_MODE_EXT, CAN_PWM, CAN_TDC, DSA, Entry, GENEVE, GRE, GRE6,
    GTP, HSR, IP_TUNNEL, IP_VLAN, IP6_TUNNEL, IPOIB, MAC_SEC, MAC_VLAN, NETKIT, OVPN, PPP, RM_NET,
    SIT, TUN, TUNNEL, VETH, VLAN, VRF, VTI, VXLAN, WWAN, XFRM,
};
// End: written by tables/generate.
use crate::format::{Row, Table};
use nla_frame::Family;

/// The row of a type without its two flag bits, if the table has one.
#[tactic(auto, using(crate::proofs::Found::found_second))]
pub fn table_row(table: Table, kind: u16) -> Option<Row>
    ensures { option_map line_of result ≡ row_of table kind }
{
    if let Some(row) = row_among(own_rows(table), kind) {
        return Some(row);
    }
    row_among(shared_rows(table), kind)
}

/// The row of a type among rows.
fn row_among(rows: &[Entry], kind: u16) -> Option<Row>
    ensures { option_map line_of result ≡ found (slice_lines rows.now) kind }
{
    for &(number, name, shape, format) in rows {
        if number == kind {
            return Some(Row {
                name,
                shape,
                format,
            });
        }
    }
    None
}

/// The rows of a table, but for those that it shares with other tables.
fn own_rows(table: Table) -> &'static [Entry]
    ensures { slice_lines result.now ≡ own_rows table }
{
    match table {
        Table::Family(family) => family_rows(family),
        Table::Sit => SIT,
        Table::Ip6Tunnel => IP6_TUNNEL,
    }
}

/// The rows that a table shares with other tables: those of tunnels.
fn shared_rows(table: Table) -> &'static [Entry]
    ensures { slice_lines result.now ≡ shared_rows table }
{
    match table {
        Table::Family(Family::IpTunnel) | Table::Sit | Table::Ip6Tunnel => TUNNEL,
        _ => &[],
    }
}

/// The rows of a family, but for those that it shares with others.
fn family_rows(family: Family) -> &'static [Entry]
    ensures { slice_lines result.now ≡ family_rows family }
{
    match family {
        // Begin: written by tables/generate from tables/families (arms).
        Family::Amt => AMT,
        Family::BareUdp => BARE_UDP,
        Family::BatAdv => BAT_ADV,
        Family::Geneve => GENEVE,
        Family::Gre => GRE,
        Family::Gre6 => GRE6,
        Family::Gtp => GTP,
        Family::Ipoib => IPOIB,
        Family::IpTunnel => IP_TUNNEL,
        Family::IpVlan | Family::IpVtap => IP_VLAN,
        Family::MacVlan | Family::MacVtap => MAC_VLAN,
        Family::MacSec => MAC_SEC,
        Family::Netkit => NETKIT,
        Family::RmNet => RM_NET,
        Family::Veth | Family::Vxcan => VETH,
        Family::Vrf => VRF,
        Family::Wwan => WWAN,
        Family::Xfrm => XFRM,
        Family::Vti => VTI,
        Family::Vxlan => VXLAN,
        Family::Bond => BOND,
        Family::BondPort => BOND_PORT,
        Family::Bridge => BRIDGE,
        Family::BridgePort => BRIDGE_PORT,
        Family::Vlan => VLAN,
        Family::Can => CAN,
        Family::Dsa => DSA,
        Family::Hsr => HSR,
        Family::Tun => TUN,
        Family::BondAdInfo => BOND_AD_INFO,
        Family::BridgeQuerierState => BRIDGE_QUERIER_STATE,
        Family::CanTdc => CAN_TDC,
        Family::CanCtrlModeExt => CAN_CTRL_MODE_EXT,
        Family::CanPwm => CAN_PWM,
        Family::Ovpn => OVPN,
        Family::Ppp => PPP,
        // End: written by tables/generate.
        Family::Frame
        | Family::LinkInfo
        | Family::Pfcp
        | Family::TeamPort
        | Family::Wireguard
        | Family::VlanQosMapping => &[],
    }
}
