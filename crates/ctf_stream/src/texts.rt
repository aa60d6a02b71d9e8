//! Which event records are given as texts.

ghost use Rattle.std.specs.Prelude.{◌≡◌, false, IsTrue};
ghost use Rattle.ctf_stream.specs.Asked.{AsksTexts, asked_first};
ghost use Rattle.ctf_stream.specs.declared.texts.Texts.TheVariants as texts;

/// The event records that a reader gives as texts, where these can be made without the values.
#[derive(Clone, Copy)]
pub enum Texts {
    /// None: each is given with its values.
    None,
    /// All.
    All,
    /// All but those before this time, in nanoseconds since the epoch, of which the clock alone may be told.
    From(i64),
}

impl Texts {
    /// These, if some are asked for; else all, or those from `begin` on, in nanoseconds since the epoch, if it is
    /// given.
    pub(crate) fn or_from(self, begin: Option<i64>) -> Texts
        ensures { result ≡ asked_first self begin }
    {
        match self {
            Texts::None => match begin {
                None => Texts::All,
                Some(begin) => Texts::From(begin),
            },
            Texts::All => Texts::All,
            Texts::From(first) => Texts::From(first),
        }
    }

    /// Whether there are such event records.
    #[inline(always)]
    pub(crate) fn are_asked(self) -> bool
        ensures some { IsTrue result → AsksTexts self }
        ensures none { result ≡ false → self ≡ texts.None }
    {
        match self {
            Texts::None => false,
            Texts::All => true,
            Texts::From(_) => true,
        }
    }
}
