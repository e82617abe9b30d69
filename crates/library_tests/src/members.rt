//! The map of names to values on its own: its order, additions at its end, entries taken out and put back.
use name_map::{Name, NameMap};
use std::alloc::Global;
use std::process::Abort;

fn name(rt: &impl Abort, alloc: Global, text: &str) -> Name {
    Name::copy_of(alloc, text).expect(rt, "room for a name")
}

// A map of these names to their places in the list.
fn map_of(rt: &impl Abort, alloc: Global, names: &[&str]) -> NameMap<usize> {
    let mut map = NameMap::new(alloc);
    for (place, text) in names.iter().enumerate() {
        let old = map.insert(name(rt, alloc, text), place);
        drop(old.expect(rt, "room for an entry"));
    }
    map
}

// The map has these entries, in this order.
fn has(rt: &impl Abort, map: &NameMap<usize>, entries: &[(&str, usize)]) {
    assert!(rt; map.len() == entries.len());
    for ((name, value), (wanted, place)) in map.iter().zip(entries) {
        assert_eq!(rt; name.as_str(), *wanted);
        assert!(rt; value == place);
    }
}

#[test]
fn names_are_in_the_order_of_their_bytes(rt: HostRuntime) {
    let map = map_of(&rt, rt.alloc(), &["b", "ä", "", "a", "B", "aa", "b"]);
    has(
        &rt,
        &map,
        &[("", 2), ("B", 4), ("a", 3), ("aa", 5), ("b", 6), ("ä", 1)],
    );
    assert!(rt; map.get("aa") == Some(&5));
    assert!(rt; map.get("ab").is_none());
}

#[test]
fn only_a_name_after_all_others_is_added_last(rt: HostRuntime) {
    let mut map = map_of(&rt, rt.alloc(), &["b"]);
    assert!(rt; map.add_last(name(&rt, rt.alloc(), "a"), 7).is_none());
    assert!(rt; map.add_last(name(&rt, rt.alloc(), "b"), 8).is_none());
    assert!(rt; map.add_last(name(&rt, rt.alloc(), "ba"), 9).is_some());
    map.shrink();
    has(&rt, &map, &[("b", 0), ("ba", 9)]);
}

#[test]
fn a_taken_entry_goes_back_with_room_and_without(rt: HostRuntime) {
    let alloc = rt.alloc();
    let all = [("a", 0), ("b", 1), ("c", 2)];
    let mut map = map_of(&rt, alloc, &["a", "b", "c"]);
    let room = map.room(alloc).expect(&rt, "room");
    let (name, value) = map.take("b").expect(&rt, "an entry");
    has(&rt, &map, &[("a", 0), ("c", 2)]);
    map.put_back(room, name, value);
    has(&rt, &map, &all);
    let room = map.room(alloc).expect(&rt, "room");
    let (name, value) = map.take("a").expect(&rt, "an entry");
    map.shrink();
    map.put_back(room, name, value);
    has(&rt, &map, &all);
}

#[test]
fn an_entry_is_found_from_any_index(rt: HostRuntime) {
    let map = map_of(&rt, rt.alloc(), &["a", "b", "d"]);
    for near in 0..5 {
        let (name, value) = map.entry_near(near, "b").expect(&rt, "an entry");
        assert_eq!(rt; name.as_str(), "b");
        assert!(rt; *value == 1);
        assert!(rt; map.entry_near(near, "c").is_none());
    }
    assert!(rt; map.last_value() == Some(&2));
    let none = map_of(&rt, rt.alloc(), &[]);
    assert!(rt; none.last_value().is_none());
    assert!(rt; none.entry_near(0, "").is_none());
}

#[test]
fn a_shared_name_stays_as_long_as_one_map_has_it(rt: HostRuntime) {
    let alloc = rt.alloc();
    let map = map_of(&rt, alloc, &["a", "b"]);
    let mut other = NameMap::new(alloc);
    for (name, value) in map.named() {
        let again = name.share().expect(&rt, "one more");
        other
            .add_last(again, *value)
            .expect(&rt, "room for an entry");
    }
    drop(map);
    has(&rt, &other, &[("a", 0), ("b", 1)]);
    drop(other.remove("a"));
    has(&rt, &other, &[("b", 1)]);
}
