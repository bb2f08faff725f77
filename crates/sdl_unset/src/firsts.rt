//! For each variable, the first place of the text that reads it unset.
ghost use Rattle.std.specs.Prelude.{◌≡◌, ℕ, ◌<◌, List, ◌++◌, None, if◌then◌else◌};
ghost use Rattle.sdl_unset.specs.Graph.{has};
ghost use Rattle.sdl_tables.specs.Scopes.{Marks};
ghost use Rattle.sdl_unset.specs.Firsts.{first_at};

use sdl_tables::earlier;

/// For each of the first 32 variables, by number: the least place in the text where a walk reads it before it sets it.
#[derive(Clone, Copy)]
pub(crate) struct Firsts {
    places: [Option<u32>; 32],
}

impl Firsts {
    /// No variable is read.
    pub fn none() -> Firsts
        ensures { (v : ℕ) → first_at result v ≡ None }
    {
        Firsts { places: [None; 32] }
    }

    /// The place of one variable; `None` if no walk reads it unset.
    pub fn place(&self, variable: usize) -> Option<u32>
        ensures { result ≡ first_at self.now variable }
    {
        match self.places.get(variable) {
            None => None,
            Some(place) => *place,
        }
    }

    /// Each variable of the mask is read at this place.
    pub fn read(variables: u32, at: u32) -> Firsts {
        let mut firsts = Firsts::none();
        for variable in 0..32 {
            if (variables >> variable) & 1 == 1 {
                firsts.places[variable] = Some(at);
            }
        }
        firsts
    }

    /// Adds the places of `next` for the variables of the mask, where they come earlier in the text.
    pub fn followed_by(self, reads: u32, next: &Firsts) -> Firsts {
        if reads == 0 {
            return self;
        }
        let mut firsts = self;
        for variable in 0..32 {
            if (reads >> variable) & 1 == 1 {
                firsts.places[variable] = earlier(firsts.places[variable], next.places[variable]);
            }
        }
        firsts
    }
}
