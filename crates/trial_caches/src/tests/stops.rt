//! A call that is stopped tells each point of its try.

use crate::tests::packets::{packet, take_pass};
use cache_face::{How, Metered};
use flow_cache::{NoMemory, PebrCache, Point, Stop};
use flow_parts::{Fragment, Timeouts};
use std::alloc::Global;

/// How many points were reached, and the last of them.
#[derive(Drop)]
struct Reached {
    count: u32,
    last: Option<Point>,
}

impl Stop for Reached {
    fn at(&mut self, point: Point) {
        self.count = self.count.saturating_add(1);
        self.last = Some(point);
    }
}

/// Meters a packet at 1 s in a cache of one set and one seat.
fn meter_stopped(alloc: Global, reached: &mut Reached) -> Result<Metered, NoMemory> {
    let (cache, mut passes) = PebrCache::open(alloc, 1, 1, Timeouts::new(300, 1800))?;
    let Some(mut pass) = take_pass(&cache, &mut passes) else {
        return Err(NoMemory);
    };
    let own = Fragment::of(&packet(0, 1, 1));
    Ok(cache.meter_stopping(&mut pass, &own, reached))
}

/// The eight points are reached, the last where the pass is out again.
#[test]
fn each_point_is_reached(rt: HostRuntime) {
    let mut reached = Reached {
        count: 0,
        last: None,
    };
    let Ok(metered) = meter_stopped(rt.alloc(), &mut reached) else {
        panic!(rt; "no memory");
    };
    assert!(rt; metered.how == How::Opened && metered.out.is_none());
    assert!(rt; reached.count >= 8 && reached.last == Some(Point::Leave));
}
