// What the arguments choose.
ghost use Rattle.std.specs.Prelude.{◌≡◌, None, false, unwrap_or};
ghost use Rattle.replay.specs.declared.choices.Sums.TheVariants.{Wrap};
ghost use Rattle.replay.specs.declared.choices.Base.TheVariants.{Subtract};

#[derive(Clone, Copy)]
pub enum Sums {
    Wrap,
    Clamp,
}

#[derive(Clone, Copy)]
pub enum Base {
    ReadWrite,
    Add,
    Subtract,
}

#[derive(Clone, Copy)]
pub struct Choices {
    pub sums: Sums,
    pub base: Base,
    // how many choices lie over the base, where words name atoms
    layers: Option<u8>,
    // whether the places are drawn after each tick
    pub trace: bool,
}

impl Choices {
    ghost use Rattle.replay.specs.Chosen.{Follows, over};

    // What no word chooses.
    pub fn unnamed() -> Choices
        ensures { result ≡ record { sums = Wrap; base = Subtract; layers = None; trace = false } }
    {
        Choices {
            sums: Sums::Wrap,
            base: Base::Subtract,
            layers: None,
            trace: false,
        }
    }

    // How many choices lie over the base: two where no atom is named.
    pub fn layers(&self) -> u8
        ensures { result ≡ unwrap_or self.now.layers 2 }
    {
        self.layers.unwrap_or(2)
    }

    // Follows a word, and no other than these.
    pub fn read_word(&mut self, word: &str)
        ensures { Follows word.now self.old self.new }
    {
        match word {
            "wrap" => self.sums = Sums::Wrap,
            "clamp" => self.sums = Sums::Clamp,
            "trace" => self.trace = true,
            "choice" => self.layers = Some(self.named_layers().saturating_add(1)),
            "rw" => self.lie_over(Base::ReadWrite),
            "add" => self.lie_over(Base::Add),
            "sub" => self.lie_over(Base::Subtract),
            _ => {}
        }
    }

    fn lie_over(&mut self, base: Base)
        ensures { self.new ≡ over base self.old }
    {
        self.base = base;
        self.layers = Some(self.named_layers());
    }

    // How many choices the words before name.
    fn named_layers(&self) -> u8
        ensures { result ≡ unwrap_or self.now.layers 0 }
    {
        self.layers.unwrap_or(0)
    }
}
