ghost use Rattle.std.specs.Prelude.{◌≡◌, ◌≢◌, ◌↔◌, ℕ, false, true, length, IfOk, IsOk, IsTrue, MatchOption, Contains};
ghost use Rattle.m17_control.specs.declared.modules.ModulesRefusal.{ModulesRefusal};

/// A set of modules, A to Z.
#[derive(Clone, Copy, Debug, PartialEq, Eq)]
pub struct Modules(u32);

/// Why a text names no modules: the first reason, in the order of places.
#[derive(Clone, Copy, Debug, PartialEq, Eq)]
pub enum ModulesRefusal {
    /// It is empty.
    Empty,
    /// The byte at this place isn't A to Z.
    Letter(usize),
    /// The letter at this place stands earlier too.
    Twice(usize),
}

impl Modules {
    ghost use Rattle.m17_control.specs.Forms.{IsModule};
    ghost use Rattle.m17_control.specs.Modules.{serves, letters_of, letters_before, IsModulesText, IsModulesRefused, IsSet};

    /// No module.
    pub fn none() -> Modules
        ensures none { (letter : ℕ) → serves result letter ≡ false }
        ensures set { IsSet result }
    {
        Modules(0)
    }

    /// The modules whose letters are the bytes of the text, each once and in any order. `Empty` where there is none,
    /// `Letter` at the first byte that is no letter of a module, and `Twice` at the first letter that stands earlier
    /// too, whichever place comes first.
    pub fn read(text: &str) -> Result<Modules, ModulesRefusal>
        ensures ok { IsOk result ↔ IsModulesText text.now }
        ensures letters { IfOk result (λ modules. (letter : ℕ)
            → IsTrue (serves modules letter) ↔ Contains text.now letter) }
        ensures set { IfOk result IsSet }
        ensures err { (refusal : ModulesRefusal)
            → (result ≡ Err refusal) ↔ IsModulesRefused text.now refusal }
    {
        let bytes = text.as_bytes();
        if bytes.is_empty() {
            return Err(ModulesRefusal::Empty);
        }
        let mut modules = Modules::none();
        for (place, byte) in bytes.iter().enumerate() {
            if !byte.is_ascii_uppercase() {
                return Err(ModulesRefusal::Letter(place));
            }
            if modules.has(*byte) {
                return Err(ModulesRefusal::Twice(place));
            }
            modules.put(*byte);
        }
        Ok(modules)
    }

    /// Whether the module with this letter is in the set.
    #[inline]
    pub fn has(&self, letter: u8) -> bool
        ensures { result ≡ serves self.now letter }
    {
        letter.is_ascii_uppercase() && (self.0 >> (letter - b'A')) & 1 == 1
    }

    /// How many modules there are, 0 to 26.
    pub fn count(&self) -> u32
        ensures { result ≡ length (letters_of self.now) }
    {
        let mut count = 0;
        for letter in b'A'..b'Z' + 1 {
            if self.has(letter) {
                count += 1;
            }
        }
        count
    }

    /// How many modules of the set have letters before this one, where its module is in the set too.
    #[inline]
    pub fn rank(&self, letter: u8) -> Option<usize>
        ensures { MatchOption result (serves self.now letter ≡ false)
            (λ rank. (serves self.now letter ≡ true)
            × (rank ≡ length (letters_before self.now letter))) }
    {
        if !self.has(letter) {
            return None;
        }
        let before = self.0 & ((1 << (letter - b'A')) - 1);
        Some(before.count_ones() as usize)
    }

    // Puts a module into the set.
    fn put(&mut self, letter: u8)
        requires { IsModule letter }
        ensures it { serves self.new letter ≡ true }
        ensures others { (other : ℕ) → other ≢ letter
            → serves self.new other ≡ serves self.old other }
        ensures set { IsSet self.old → IsSet self.new }
    {
        self.0 |= 1 << (letter - b'A');
    }
}
