//! The calls of `live_fleet` that ask, on a fleet whose first device has made many versions.
use crate::told::tell;
use live_fleet::{Fleet, holding, knowing, lacking, pull_moves, selected};
use photo_device::Device;
use photo_record::PicNo;
use tool_value_refusals::filter_of;

/// Makes them.
pub fn make(rt: HostRuntime, fleet: &Fleet) {
    if let Some(picture) = PicNo::new(1) {
        of_picture(rt, fleet, picture);
    }
    if let [first, second] = fleet.devices() {
        of_devices(rt, first, second);
    }
}

fn of_picture(rt: HostRuntime, fleet: &Fleet, picture: PicNo) {
    let done = holding(rt.alloc(), fleet, picture).is_ok();
    tell(rt, "live_fleet::holding", done);
    let done = knowing(rt.alloc(), fleet, picture).is_ok();
    tell(rt, "live_fleet::knowing", done);
    let done = lacking(rt.alloc(), fleet, picture).is_ok();
    tell(rt, "live_fleet::lacking", done);
}

fn of_devices(rt: HostRuntime, first: &Device, second: &Device) {
    let done = pull_moves(rt.alloc(), second, first).is_ok();
    tell(rt, "live_fleet::pull_moves", done);
    let made = filter_of(rt.alloc(), "keyword sea");
    if let Some(wanted) = &made {
        let done = selected(rt.alloc(), first, wanted).is_ok();
        tell(rt, "live_fleet::selected", done);
    }
    drop(made);
}
