// The pair slip's mark while a child is made.
ghost use Rattle.std.specs.Prelude.{◌≡◌, ◌+◌, ◌^◌, ◌<◌};

// Holds the mark of the slip, and puts it back where it was on every way out. The child starts from a copy.
pub struct SlipGuard<'a> {
    mark: &'a mut usize,
    start: usize,
}

impl<'a> SlipGuard<'a> {
    pub fn hold(mark: &'a mut usize) -> SlipGuard<'a>
        ensures start { result.start ≡ mark.old }
        ensures mark { result.mark.now ≡ mark.old }
        ensures lender { result.mark.ghost_name ≡ mark.entry.ghost_name }
    {
        let start = *mark;
        SlipGuard { mark, start }
    }

    // So many pairs stand for the child.
    pub fn raise(&mut self, pairs: usize)
        requires { self.old.mark.now + pairs < 2 ^ 64 }
        ensures mark { self.new.mark.now ≡ self.old.mark.now + pairs }
        ensures start { self.new.start ≡ self.old.start }
        ensures lender { self.new.mark.ghost_name ≡ self.old.mark.ghost_name }
    {
        *self.mark += pairs;
    }

    // Where the child's own pairs would start.
    pub fn mark(&self) -> usize
        ensures { result ≡ self.now.mark.now }
    {
        *self.mark
    }
}

impl Drop for SlipGuard<'_> {
    fn drop(self)
        ensures { self.exit.0.now ≡ self.entry.start }
    {
        *self.mark = self.start;
        let SlipGuard { mark: _, start: _ } = self;
    }
}
