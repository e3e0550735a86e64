//! What no clause says: that ample memory is enough.
use abc_chunks::Chunks;
use std::alloc::AllocError;

/// Whether both have the same elements.
fn are_same(all: &Chunks<u32>, plain: &[u32]) -> bool {
    if all.len() != plain.len() {
        return false;
    }
    for i in 0..plain.len() {
        if all[i] != plain[i] {
            return false;
        }
    }
    true
}

/// Elements that come to any place and go from any place, beside a plain vector; what was kept in between stays.
#[test]
fn chunks_are_a_sequence(rt: HostRuntime) -> Result<(), AllocError> {
    let alloc = rt.alloc();
    let mut all = Chunks::new(alloc);
    let mut plain = Vec::new(alloc);
    for i in 0..1000u32 {
        let place = i as usize * 7919 % (plain.len() + 1);
        assert_eq!(rt; all.len(), plain.len());
        all.insert(place, i)?;
        plain.insert(place, i)?;
    }
    let kept = all.copy()?;
    let old = Chunks::from_vec(plain.clone()?)?;
    for i in 0..900usize {
        let place = i * 31 % 100;
        assert!(rt; place < all.len() && place < plain.len());
        assert_eq!(rt; all.remove(place)?, plain.remove(place));
        assert!(rt; place < all.len() && place < plain.len());
        let was = plain[place];
        plain[place] = i as u32;
        assert_eq!(rt; all.replace(place, i as u32)?, was);
    }
    assert!(rt; are_same(&all, &plain));
    assert_eq!(rt; kept.len(), old.len());
    for i in 0..1000usize {
        assert!(rt; kept.get(i) == old.get(i));
    }
    Ok(())
}
