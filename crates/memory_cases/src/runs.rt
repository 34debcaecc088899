//! What a map of runs gives back, and how small a region is. How runs are taken and merged stands in the
//! examples.

use ground::Ground;
use pool_law::Region;
use run_map::RunMap;

// A region is small.
const _: () = prove!(size_of::<Region>() <= 72);

#[test]
fn the_whole_ground_comes_back(rt: HostRuntime) {
    let alloc = rt.alloc();
    let (ground, deed) = Ground::new(alloc, 131072).expect(&rt, "ample memory");
    match RunMap::new(alloc, 4, ground) {
        Err(ground) => {
            ground.close(deed);
            panic!(rt; "ample memory");
        }
        Ok(map) => {
            let whole = map.into_piece();
            assert!(rt; whole.start() == 0 && whole.len() == 131072);
            whole.close(deed);
        }
    }
}
