//! Lists of nodes: each call once at known values.
ghost use Rattle.std.specs.Prelude.{◌≡◌, ◌<◌, length};

use qd_links::{Links, Memory};
use std::alloc::Global;
use std::test::Fail;

/// The nodes of a list from its front on. `nodes` is how many nodes there are.
fn forwards(alloc: Global, links: &Links, list: usize, nodes: usize) -> Result<Vec<usize>, Memory>
    requires list_in { list < length links.now.lists }
    requires all { nodes ≡ links.now.nodes }
{
    let mut found = Vec::new(alloc);
    let mut next = links.front(list);
    for _ in 0..nodes {
        match next {
            Some(node) if node < nodes => {
                found.push(node)?;
                next = links.next_of(node);
            }
            _ => break,
        }
    }
    Ok(found)
}

#[test]
fn known_lists(rt: HostRuntime) -> Result<(), Fail> {
    let alloc = rt.alloc();
    let mut links = Links::with_nodes(alloc, 3, 2)?;
    assert_eq!(rt; links.front(0), None);
    assert!(rt; !links.in_list(0));
    links.push_back(0, 0);
    assert!(rt; !links.in_list(1));
    links.push_back(0, 1);
    assert!(rt; links.in_list(1));
    assert!(rt; !links.in_list(2));
    links.insert_before(1, 2);
    assert_eq!(rt;
        forwards(alloc, &links, 0, 3)?.as_slice(),
        [0, 2, 1].as_slice()
    );
    assert_eq!(rt; links.prev_of(2), Some(0));
    links.grow(2)?;
    assert!(rt; !links.in_list(4));
    links.push_back(1, 4);
    assert_eq!(rt; links.next_of(1), None, "the lists are apart");
    assert_eq!(rt; links.front(1), Some(4));
    assert!(rt; links.in_list(2));
    links.unlink(2);
    assert_eq!(rt; links.prev_of(1), Some(0));
    assert_eq!(rt; links.next_of(2), None);
    assert_eq!(rt; links.pop_front(0), Some(0));
    assert_eq!(rt; forwards(alloc, &links, 0, 5)?.as_slice(), [1].as_slice());
    Ok(())
}
