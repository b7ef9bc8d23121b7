//! Five values, one for each node.
ghost use Rattle.std.specs.Prelude.{◌≡◌, ◌<◌};
ghost use Rattle.std.specs.Borrow.{sem};
ghost use Rattle.arc_bytes.specs.Five.{at};
ghost use Rattle.arc_bytes.specs.Lending.{LendsNode};

/// Five values, one for each node.
#[derive(Drop)]
pub struct Five<T> {
    pub d0: T,
    pub d1: T,
    pub d2: T,
    pub d3: T,
    pub d4: T,
}

impl<T> Five<T> {
    /// That of this node, below 5.
    pub fn get(&self, node: u8) -> &T
        requires { node < 5 }
        ensures { result.now ≡ at self.now node }
    {
        match node {
            0 => &self.d0,
            1 => &self.d1,
            2 => &self.d2,
            3 => &self.d3,
            _ => &self.d4,
        }
    }
    /// That of this node, below 5, to be changed. The others stay.
    pub fn get_mut(&mut self, node: u8) -> &mut T
        requires { node < 5 }
        ensures* writes_back { sem 𝓛 (LendsNode T.row self.entry node result) }
        ensures value { result.now ≡ at self.old node }
    {
        match node {
            0 => &mut self.d0,
            1 => &mut self.d1,
            2 => &mut self.d2,
            3 => &mut self.d3,
            _ => &mut self.d4,
        }
    }
}
