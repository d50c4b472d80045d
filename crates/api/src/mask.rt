// Which bays run, in sixteen bits.
ghost use Rattle.std.specs.Prelude.{◌≡◌};
ghost use Rattle.api.specs.Api.{mask_flags};

use dealer::BAYS;

pub fn flags(mask: u16) -> [bool; BAYS]
    ensures { result ≡ mask_flags mask }
{
    let bits = mask as u64;
    let mut flags = [false; BAYS];
    for b in 0..BAYS {
        flags[b] = marks::marked(bits, b);
    }
    flags
}
