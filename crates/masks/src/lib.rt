// Masks of facts: each bit is set and read by shift. Nothing here knows what a bit stands for.
#![tactic(auto)]

ghost use Rattle.std.specs.Prelude.{◌≡◌, ◌+◌, ◌*◌, ◌^◌, ◌<◌};
ghost use Rattle.wire.specs.Field.{bit};
ghost use Rattle.masks.specs.Mask.{shown};

// The mask with bit k set where the fact holds; no bit from k on was set before.
pub fn flag(so_far: u16, k: u16, fact: bool) -> u16
    requires { (so_far < 2 ^ k) × (k < 16) }
    ensures { (result ≡ so_far + bit fact * 2 ^ k) × (result < 2 ^ (k + 1)) }
{
    so_far | ((fact as u16) << k)
}

// Whether the mask shows bit k.
pub fn shows(mask: u16, k: u16) -> bool
    requires { k < 16 }
    ensures { result ≡ shown mask k }
{
    mask >> k & 1 == 1
}
