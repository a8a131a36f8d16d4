// What the program prints.
ghost use Rattle.std.specs.Prelude.{◌^◌};
ghost use Rattle.std.specs.Iterator.{UpTo};

use std::io;

// Compares cases: prints each that disagrees, and then the group's name, its number of cases and its number of agreements.
pub fn compare<C, I: Iterator<Item = C> + Drop, F: FnMut(C) -> io::Result<bool>>(
    rt: &impl Print,
    name: &str,
    cases: I,
    mut agrees: F,
) -> io::Result<()>
    requires can_next { I.can_next cases }
    requires few { UpTo (I.remaining cases) (2 ^ 63) }
    requires callable { F.IsAlwaysCallable agrees }
{
    let mut count: usize = 0;
    let mut agreed: usize = 0;
    for case in cases {
        if agrees(case)? {
            agreed += 1;
        } else {
            println!(rt; "disagreement in case {count}")?;
        }
        count += 1;
    }
    println!(rt; "{name} {count} {agreed}")
}
