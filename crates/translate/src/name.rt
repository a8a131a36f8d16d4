// The names of declared quantities as bytes: 8 each, padded with spaces.
ghost use Rattle.std.specs.Prelude.{◌≡◌, ◌*◌, ◌≤◌, length};
ghost use Rattle.meaning.specs.Lists.{padded, name_bytes};
ghost use Rattle.translate.specs.Translate.{filled};
ghost use Rattle.translate.specs.inner.Letters.{Letters};

// The bytes of a name.
const WIDTH: usize = 8;

// The letters of a name, from its number, at most `most` of them: how many were written at the front.
fn letters(name: u64, most: usize, slot: &mut [u8]) -> usize
    requires { most ≤ length slot.old }
    ensures { Letters name most slot.old slot.new result }
{
    if most == 0 || name == 0 {
        return 0;
    }
    let at = letters(name / 256, most - 1, slot);
    slot[at] = (name % 256) as u8;
    at + 1
}

// One name.
fn pad(name: u64, slot: &mut [u8])
    requires { length slot.old ≡ 8 }
    ensures { slot.new ≡ padded name }
{
    slot.fill(b' ');
    letters(name, WIDTH, slot);
}

// The names of all declared quantities, in order, at the front.
pub fn write(keys: &[u64], names: &mut [u8])
    requires { 8 * length keys.now ≤ length names.old }
    ensures { names.new ≡ filled (name_bytes keys.now) names.old }
{
    for (i, key) in keys.iter().enumerate() {
        let at = WIDTH * i;
        pad(*key, &mut names[at..at + WIDTH]);
    }
}
