use zr_game::Kind;

/// What the words of the command line ask for.
#[derive(Clone, Copy, Debug)]
pub enum Command<'a> {
    /// `solve GAME`: the game's equilibrium of the kind, or that it has none.
    Solve {
        game: &'a str,
        options: Options,
    },
    /// `check GAME CERT`: whether the certificate is right for the game.
    Check {
        game: &'a str,
        cert: &'a str,
    },
    /// `best GAME CERT`: what each player of the game can get at best against the certificate's
    /// profile.
    Best {
        game: &'a str,
        cert: &'a str,
        options: Options,
    },
    /// `migrate GAME`: the game's text in today's form.
    Migrate {
        game: &'a str,
    },
}

/// The options of the command line, each as it is given or at its default.
#[derive(Clone, Copy, Debug, PartialEq, Eq)]
pub struct Options {
    /// `--kind pure` or `--kind mixed`, which is the default.
    pub kind: Kind,
    /// `--budget`: the limit of each purse, 0 to 1,000,000,000, by default 1,000,000.
    pub budget: u32,
    /// `--rounds`: 0 to 10,000, by default 20.
    pub rounds: u32,
    /// `--order`: 0 to 1,000,000, by default 0.
    pub order: u32,
}
