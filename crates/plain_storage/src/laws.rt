//! Laws on what images hold.

ghost use Rattle.std.specs.Prelude.{◌≡◌, ℕ, List};
ghost use Rattle.plain_storage.specs.Held.{IsPlainStored, PlainHeld};

/// The images of the two files hold one thing at most.
pub fn images_hold_one()
    ensures { (image0 image1 : List ℕ) (held other : PlainHeld) → IsPlainStored image0 image1 held → IsPlainStored image0 image1 other → held ≡ other }
{}
