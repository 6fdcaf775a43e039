//! A test that the script must see fail.

/// Fails if its allocation fails, or if growing it does. So the script knows that it makes both
/// fail.
#[test]
fn fails_without_memory(rt: HostRuntime) {
    let mut bytes = Vec::from_array(rt.alloc(), [0u8]).expect(&rt, "memory");
    bytes.extend_from_slice(&[0; 100]).expect(&rt, "memory");
}
