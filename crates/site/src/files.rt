// What a site keeps of a file.
#[derive(Clone, Copy, PartialEq, Eq, Debug)]
pub struct Kept {
    // the issue of its last put, 0 before the first
    pub last: u16,
    // whether it can be got: it was put, and was not withdrawn since
    pub current: bool,
    // how many bytes it has, 4,092 at most; a withdrawn file keeps it too, so that it is no Option that `current` stands for
    pub size: u16,
}
