// Working memory that a caller lends for one call, and the guard that wipes it.
#![tactic(auto)]

ghost use Rattle.std.specs.Prelude.{◌≡◌, is_none, length, take, IfSome};
ghost use Rattle.memory.specs.Zeros.{short, zeroed};

// Bytes that each of the four buffers is to have at least.
pub const LEAST: usize = 6400;

// Four buffers for one call, named by what they hold while it works. What they held before does not matter, and they are zero
// when it has returned.
#[derive(Drop)]
pub struct Work<'a> {
    // a package
    pub sealed: &'a mut [u8],
    // the slices of a package, or one record
    pub spread: &'a mut [u8],
    // records end to end
    pub records: &'a mut [u8],
    // a file
    pub opened: &'a mut [u8],
}

// Whether a buffer is too short, of four that have so many bytes.
pub fn is_short(sealed: usize, spread: usize, records: usize, opened: usize) -> bool
    ensures { result ≡ short sealed spread records opened }
{
    sealed < LEAST || spread < LEAST || records < LEAST || opened < LEAST
}

// The fronts of the four buffers, each of the least length.
#[derive(Drop)]
pub struct Buffers<'a> {
    pub sealed: &'a mut [u8; LEAST],
    pub spread: &'a mut [u8; LEAST],
    pub records: &'a mut [u8; LEAST],
    pub opened: &'a mut [u8; LEAST],
}

impl<'a> Buffers<'a> {
    // Those of four buffers, or nothing where one of them is too short.
    pub fn of(
        sealed: &'a mut [u8],
        spread: &'a mut [u8],
        records: &'a mut [u8],
        opened: &'a mut [u8],
    ) -> Option<Buffers<'a>>
        ensures some { is_none result ≡ short (length sealed.old) (length spread.old) (length records.old) (length opened.old) }
        ensures fronts { IfSome result (λ b. (b.sealed.now ≡ take 6400 sealed.old) × (b.spread.now ≡ take 6400 spread.old) × (b.records.now ≡ take 6400 records.old) × (b.opened.now ≡ take 6400 opened.old)) }
    {
        Some(Buffers {
            sealed: sealed.first_chunk_mut()?,
            spread: spread.first_chunk_mut()?,
            records: records.first_chunk_mut()?,
            opened: opened.first_chunk_mut()?,
        })
    }
}

// A guard over the four buffers: they are zero once it ends.
pub struct Wipe<'a> {
    pub sealed: &'a mut [u8],
    pub spread: &'a mut [u8],
    pub records: &'a mut [u8],
    pub opened: &'a mut [u8],
}

impl Drop for Wipe<'_> {
    fn drop(self)
        ensures sealed { self.exit.0.now ≡ zeroed self.entry.sealed.now }
        ensures spread { self.exit.1.0.now ≡ zeroed self.entry.spread.now }
        ensures records { self.exit.1.1.0.now ≡ zeroed self.entry.records.now }
        ensures opened { self.exit.1.1.1.0.now ≡ zeroed self.entry.opened.now }
    {
        self.sealed.fill(0);
        self.spread.fill(0);
        self.records.fill(0);
        self.opened.fill(0);
        let Wipe {
            sealed: _,
            spread: _,
            records: _,
            opened: _,
        } = self;
    }
}

// Makes the four buffers zero. They come one by one, and not as a Work: of a struct that is lent whole a caller's proof does not
// learn what is left behind its fields.
pub fn wipe_all(sealed: &mut [u8], spread: &mut [u8], records: &mut [u8], opened: &mut [u8])
    ensures sealed { sealed.new ≡ zeroed sealed.old }
    ensures spread { spread.new ≡ zeroed spread.old }
    ensures records { records.new ≡ zeroed records.old }
    ensures opened { opened.new ≡ zeroed opened.old }
{
    let _wipe = Wipe {
        sealed,
        spread,
        records,
        opened,
    };
}
