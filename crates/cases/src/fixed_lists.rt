// A list of four bytes at its bounds, told by what is in it.
// Each call is made once with room and once without.
use lists::list::FixedList;

// Four bytes at most.
type Four = FixedList<u8, 4>;

#[test]
fn grows_as_far_as_there_is_room(rt: HostRuntime) {
    let mut list = Four::new();
    assert!(rt; list.is_empty());
    list.push(1);
    list.extend_from_slice(&[2, 3]);
    assert_eq!(rt; &list[..], [1, 2, 3].as_slice());
    list.extend_from_slice(&[4, 5]);
    list.push(6);
    assert_eq!(rt; &list[..], [1, 2, 3, 4].as_slice());
}

#[test]
fn is_changed_within(rt: HostRuntime) {
    let mut list = Four::new();
    list.extend_from_slice(&[1, 2, 3]);
    list.set(1, 7);
    list.set(3, 8);
    assert_eq!(rt; &list[..], [1, 7, 3].as_slice());
}

#[test]
fn is_made_of_what_fits(rt: HostRuntime) {
    assert_eq!(rt;
        Four::from_slice(&[1, 2, 3, 4]).map(|list| list.iter().len()),
        Some(4)
    );
    assert!(rt; Four::from_slice(&[1, 2, 3, 4, 5]).is_none());
}
