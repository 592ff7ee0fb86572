// Paths: the way into a text, form by form.
ghost use Rattle.std.specs.Prelude.{◌≡◌, ◌+◌, ◌<◌, ◌≤◌, [], ◌∷◌, ◌++◌, OnOk, OnErr};
ghost use Rattle.protocol.specs.Commands.{path_limit};
ghost use Rattle.protocol.specs.Paths.{steps_of};

/// The most steps of a path.
pub const PATH_LIMIT: usize = 16;

/// The number of an item in its chain.
pub type Step = u16;

/// At most sixteen steps, the first `length` of these: each leads into a form of the chain that the steps before lead to.
/// Comparing two paths compares the places behind their steps as well.
// A rule of the project: a path takes no heap and is copied with its command, so it is a plain record of fixed size.
#[derive(Clone, Copy, PartialEq, Eq, Debug)]
pub struct Path {
    pub steps: [Step; PATH_LIMIT],
    pub length: usize,
}

/// A path has sixteen steps already.
#[derive(Clone, Copy, PartialEq, Eq, Debug)]
pub struct PathFull;

impl Path {
    /// The empty path.
    pub fn new() -> Path
        ensures steps { steps_of result ≡ [] }
        ensures length { result.length ≡ 0 }
    {
        Path {
            steps: [0; PATH_LIMIT],
            length: 0,
        }
    }

    /// The steps, in their order.
    pub fn steps(&self) -> &[Step]
        ensures { result.now ≡ steps_of self.now }
    {
        &self.steps[..self.length.min(PATH_LIMIT)]
    }

    /// Adds a step behind the others. A path that is full is refused, and stays as it was.
    pub fn push(&mut self, step: Step) -> Result<(), PathFull>
        ensures room { OnOk result (self.old.length < path_limit) }
        ensures steps { OnOk result (steps_of self.new ≡ steps_of self.old ++ (step ∷ [])) }
        ensures length { OnOk result (self.new.length ≡ self.old.length + 1) }
        ensures full { OnErr result (path_limit ≤ self.old.length) }
        ensures same { OnErr result (self.new ≡ self.old) }
    {
        if self.length >= PATH_LIMIT {
            return Err(PathFull);
        }
        self.steps[self.length] = step;
        self.length += 1;
        Ok(())
    }
}
