ghost use Rattle.std.specs.Prelude.{◌≡◌};
ghost use Rattle.zero.specs.Messages.{excess};
ghost use Rattle.zero.specs.Reads.{limit_of};
ghost use Rattle.zero.specs.Endings.{line};

/// Which text stands under a name.
#[derive(Clone, Copy, Debug, PartialEq, Eq)]
pub enum Text {
    /// A game text, of at most 8,388,608 bytes.
    Game,
    /// The text of a certificate, of at most 67,108,864 bytes.
    Cert,
}

impl Text {
    /// The greatest length of such a text.
    pub fn limit(self) -> usize
        ensures { result ≡ limit_of self }
    {
        match self {
            Text::Game => 8_388_608,
            Text::Cert => 67_108_864,
        }
    }

    /// The end of the line that says that such a text is too long.
    pub fn excess(self) -> &'static str
        ensures { result.now ≡ line (excess self) }
    {
        match self {
            Text::Game => " is longer than 8388608 bytes\n",
            Text::Cert => " is longer than 67108864 bytes\n",
        }
    }
}
