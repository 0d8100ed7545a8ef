//! Places a packet and what it rebuilds.

ghost use Rattle.std.specs.Prelude.{◌≡◌, ◌≤◌, length, All, Some, None, IfSome};
ghost use Rattle.std.specs.Option.{option_map};
ghost use Rattle.vrx_num.specs.declared.limits.TheConstants.{WINDOW};
ghost use Rattle.vrx_codec.specs.Joining.{FitsLayers};
ghost use Rattle.vrx_window.specs.Content.{contents_of};
ghost use Rattle.vrx_window.specs.Window.{after_placing, would_of};
ghost use Rattle.vrx_window.specs.declared.placing.Placing.TheVariants.{Fresh};
ghost use Rattle.vrx_repair.specs.Commit.{ArePlaceable, HasRoom, held_beside, newest_with_layers, pictures_after, place_beside, window_after};
ghost use Rattle.vrx_repair.specs.Plan.{entries_of};

use crate::repair::Repair;
use vrx_codec::{Layers, Place};
use vrx_num::{Pictures, picture_is_near};
use vrx_window::{Held, Window, contents_are};

/// The place that layers say beside the newest picture, which takes the picture.
fn extend(pictures: &mut Pictures, layers: Layers) -> Place
    requires fits { FitsLayers layers }
    requires room { HasRoom pictures.old 1 }
    ensures place { result ≡ place_beside pictures.old layers }
    ensures pictures { pictures.new ≡ newest_with_layers pictures.old (Some layers) }
{
    let picture = pictures.extend(layers.picture);
    pictures.accept(picture);
    Place {
        picture,
        tl0: layers.tl0,
        tid: layers.tid,
        sync: layers.sync,
    }
}

/// The same, if there are layers.
fn extend_if(pictures: &mut Pictures, layers: Option<Layers>) -> Option<Place>
    requires fits { IfSome layers FitsLayers }
    requires room { HasRoom pictures.old 1 }
    ensures place { result ≡ option_map (place_beside pictures.old) layers }
    ensures pictures { pictures.new ≡ newest_with_layers pictures.old layers }
{
    match layers {
        None => None,
        Some(layers) => Some(extend(pictures, layers)),
    }
}

/// Places a repair, its place extended beside the newest picture.
fn place_repair(window: &mut Window, pictures: &mut Pictures, repair: Repair)
    requires fresh { would_of window.old repair.number ≡ Fresh }
    requires fits { IfSome repair.layers FitsLayers }
    requires room { HasRoom pictures.old 1 }
    ensures window { window.new ≡ after_placing repair.number (held_beside pictures.old repair) window.old }
    ensures pictures { pictures.new ≡ newest_with_layers pictures.old repair.layers }
{
    let Repair {
        number,
        text,
        marker,
        ts,
        start,
        key,
        layers,
    } = repair;
    let layers = extend_if(pictures, layers);
    let held = Held::Media {
        text,
        marker,
        ts,
        start,
        key,
        layers,
    };
    window.place(number, held);
}

/// Places repairs in their order.
#[inline(never)]
pub(crate) fn place_repairs(window: &mut Window, pictures: &mut Pictures, repairs: Vec<Repair>)
    requires placeable { ArePlaceable (contents_of window.old) (entries_of repairs.items) }
    requires fits { All (λ repair. IfSome repair.layers FitsLayers) repairs.items }
    requires room { HasRoom pictures.old (length repairs.items) }
    requires few { length repairs.items ≤ WINDOW }
    ensures window { window.new ≡ window_after repairs.items pictures.old window.old }
    ensures pictures { pictures.new ≡ pictures_after repairs.items pictures.old }
{
    // Cited here: what becomes of a window by its contents, and what always holds of the newest picture.
    contents_are();
    picture_is_near();
    let _picture = pictures.newest();
    for repair in repairs {
        place_repair(window, pictures, repair);
    }
}
