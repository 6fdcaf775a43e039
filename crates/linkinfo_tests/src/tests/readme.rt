//! The README's example, word for word: a vxlan link is built, written, parsed, compared and
//! iterated over.

use linkinfo::{
    InfoData, InfoKind, InfoVxlan, LinkInfo, LinkInfoWalk, Nlas, VecLinkInfo, check, same,
};
use std::test::Fail;

#[test]
fn vxlan_link(rt: HostRuntime) -> Result<(), Fail> {
    let alloc = rt.alloc();
    let data = vec![in alloc; InfoVxlan::Id(42), InfoVxlan::Port(4789)]?;
    let list = VecLinkInfo::from(vec![in alloc;
        LinkInfo::Kind(InfoKind::Vxlan),
        LinkInfo::Data(InfoData::Vxlan(Nlas::new(data))),
    ]?);
    // The canonical encoding, or the error `Unfit` where an attribute is too long.
    let bytes = list.to_vec(alloc)?;
    // Validating allocates nothing. An error has a family, a type and a cause.
    assert_eq!(rt; check(&bytes), Ok(()));
    assert!(rt; VecLinkInfo::parse(alloc, &bytes)? == list);
    // Comparing for equal meaning allocates nothing.
    assert_eq!(rt; same(&bytes, &[]), Ok(false));
    // Each attribute is borrowed: its offset, type, payload, and the current kinds.
    let mut walk = LinkInfoWalk::new(&bytes);
    let Some(Ok(kind)) = walk.next() else {
        panic!(rt; "an attribute");
    };
    assert_eq!(rt;
        (kind.place, kind.raw_kind, kind.value),
        (0, 1, b"vxlan\0".as_slice())
    );
    Ok(())
}
