// The parts of a line: words, and numbers in decimal. Each is put from a place of the buffer on, and
// answers the place past it.
ghost use Rattle.std.specs.Prelude.{◌≡◌, ◌++◌, ◌+◌, ◌≤◌, length};
ghost use Rattle.std.proofs.lemmas.List.Edits.{sets};
ghost use Rattle.listing.specs.Listing.{digits};

pub fn digits_of(n: usize) -> usize
    ensures { (result ≡ length (digits n)) × (result ≤ 20) }
{
    n.max(1).ilog10() as usize + 1
}

fn put_word(word: &[u8], at: usize, out: &mut [u8]) -> usize
    requires { at + length word.now ≤ length out.old }
    ensures value { result ≡ at + length word.now }
    ensures out_after { out.new ≡ sets out.old at word.now }
{
    let end = at + word.len();
    out[at..end].copy_from_slice(word);
    end
}

// The last digit first.
fn put_number(n: usize, at: usize, out: &mut [u8]) -> usize
    requires { at + length (digits n) ≤ length out.old }
    ensures value { result ≡ at + length (digits n) }
    ensures out_after { out.new ≡ sets out.old at (digits n) }
{
    let end = at + digits_of(n);
    let mut rest = n;
    for i in (at..end).rev() {
        out[i] = b'0' + (rest % 10) as u8;
        rest /= 10;
    }
    end
}

// A word, and a number after it.
pub fn put_part(word: &[u8], n: usize, at: usize, out: &mut [u8]) -> usize
    requires { at + length (word.now ++ digits n) ≤ length out.old }
    ensures value { result ≡ at + length (word.now ++ digits n) }
    ensures out_after { out.new ≡ sets out.old at (word.now ++ digits n) }
{
    let next = put_word(word, at, out);
    put_number(n, next, out)
}
