//! Sets of areas: in which of them an address may be, where more isn't known.

use program_interface::Area;

/// In which areas the address may be that a word is, if it is one. Of none it is known that it may be an address.
#[derive(Clone, Copy, PartialEq, Eq)]
pub(crate) struct AreaSet {
    pub context: bool,
    pub block: bool,
    pub stack: bool,
    pub scratch: bool,
}

/// No area.
pub(crate) const NO_AREA: AreaSet = AreaSet {
    context: false,
    block: false,
    stack: false,
    scratch: false,
};

/// Any area.
pub(crate) const ANY_AREA: AreaSet = AreaSet {
    context: true,
    block: true,
    stack: true,
    scratch: true,
};

/// The areas, in the order in which an address is looked for in them.
pub(crate) const IN_ORDER: [Area; 4] = [Area::Block, Area::Scratch, Area::Stack, Area::Context];

impl AreaSet {
    /// One area.
    pub fn of(area: Area) -> AreaSet {
        let mut set = NO_AREA;
        match area {
            Area::Context => set.context = true,
            Area::Block => set.block = true,
            Area::Stack => set.stack = true,
            Area::Scratch => set.scratch = true,
        }
        set
    }

    /// The areas of both sets.
    pub fn with(self, other: AreaSet) -> AreaSet {
        AreaSet {
            context: self.context || other.context,
            block: self.block || other.block,
            stack: self.stack || other.stack,
            scratch: self.scratch || other.scratch,
        }
    }

    /// The areas of this set but for one.
    pub fn without(self, area: Area) -> AreaSet {
        let mut set = self;
        match area {
            Area::Context => set.context = false,
            Area::Block => set.block = false,
            Area::Stack => set.stack = false,
            Area::Scratch => set.scratch = false,
        }
        set
    }

    /// Is an area in the set?
    pub fn has(self, area: Area) -> bool {
        match area {
            Area::Context => self.context,
            Area::Block => self.block,
            Area::Stack => self.stack,
            Area::Scratch => self.scratch,
        }
    }

    /// Those of the areas that can be written.
    pub fn writable(self) -> AreaSet {
        AreaSet {
            context: false,
            block: false,
            ..self
        }
    }

    /// How many areas it has.
    pub fn count(self) -> usize {
        usize::from(self.context)
            + usize::from(self.block)
            + usize::from(self.stack)
            + usize::from(self.scratch)
    }

    /// The first of its areas, in the order in which an address is looked for in them.
    pub fn first(self) -> Option<Area> {
        for area in IN_ORDER {
            if self.has(area) {
                return Some(area);
            }
        }
        None
    }
}
