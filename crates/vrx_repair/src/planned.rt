//! The plan of what a packet rebuilds.

ghost use Rattle.std.specs.Prelude.{◌≡◌, ◌^◌, ◌≤◌, IfSome};
ghost use Rattle.vrx_window.specs.Content.{contents_of};
ghost use Rattle.vrx_window.specs.Sound.{AreSound, IsSound};
ghost use Rattle.vrx_window.specs.Window.{after_placing};
ghost use Rattle.vrx_repair.specs.Commit.{pictures_after, window_after};
ghost use Rattle.vrx_repair.specs.Plan.{IsPlan, IsPlanned, IsRepaired, numbers_of, placed, repairs_in};
ghost use Rattle.vrx_repair.specs.Source.{Source};

use crate::committed::place_repairs;
use crate::laws::repairs_are;
use crate::repair::Repair;
use std::marker::Model;
use vrx_num::{Numbers, Pictures, picture_is_near};
use vrx_window::{Held, Window, contents_are, sound_stays};

/// What the arrival of a packet rebuilds.
///
/// Contracts see the repairs in their order. All memory that they need was taken.
#[derive(Debug, Drop)]
pub struct Plan {
    pub(crate) repairs: Vec<Repair>,
    pub(crate) numbers: Numbers,
}

impl Model for Plan {
    ghost use Rattle.std.specs.Prelude.{◌≡◌, List};
    ghost use Rattle.vrx_repair.specs.Plan.{numbers_of};
    ghost use Rattle.vrx_repair.specs.declared.repair.Repair.{Repair};

    ghost Value = { List Repair };

    ghost view = { λ a. a.repairs.items };

    ghost invariant = { λ a. a.numbers ≡ numbers_of a.repairs.items };
}

impl Plan {
    /// The numbers of the repairs, in their order.
    pub fn numbers(&self) -> &[u64]
        ensures numbers { result.now ≡ numbers_of self.now }
    {
        self.numbers.as_slice()
    }

    /// Places the packet that was planned for, and its repairs in their order, and gives the repairs' numbers. The
    /// picture of each repair with layers is extended beside the newest one, and taken. It takes no memory, and can't
    /// be refused.
    ///
    /// The window is the one that was planned for, unchanged. The packet's own picture was taken already.
    #[inline(always)]
    pub fn commit(self, window: &mut Window, pictures: &mut Pictures, n: u64, held: Held) -> Numbers
        requires planned { IsPlanned n held window.old self }
        requires newest { IfSome pictures.old (λ newest. newest ≤ 2 ^ 61) }
        ensures window { window.new ≡ window_after self pictures.old (after_placing n held window.old) }
        ensures pictures { pictures.new ≡ pictures_after self pictures.old }
        ensures numbers { result ≡ numbers_of self }
        // By contents: the repairs are the defined ones, and after them no step is left.
        ensures repaired { (source : Source) → IsPlan source n held window.old self →
            IsRepaired source (repairs_in source (placed n held window.old)) (placed n held window.old)
            (contents_of window.new) }
        ensures sound { (source : Source) → IsPlan source n held window.old self →
            AreSound source.codec window.old.packets → IsSound source.codec held → AreSound source.codec window.new.packets }
    {
        // Cited here: what becomes of a window by its contents, what repairs come to, and what always holds of the
        // newest picture and of a window.
        contents_are();
        sound_stays();
        repairs_are();
        picture_is_near();
        let _picture = pictures.newest();
        let _newest = window.newest();
        let Plan { repairs, numbers } = self;
        window.place(n, held);
        place_repairs(window, pictures, repairs);
        numbers
    }
}
