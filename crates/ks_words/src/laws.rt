//! What holds of the definitions that the contracts cite. Each law is the contract of a function that
//! does nothing.
ghost use Rattle.std.specs.Prelude.{◌≡◌, ◌↔◌, ℕ, List, [], ◌∷◌, false, Some, codes};
ghost use Rattle.ks_words.specs.Words.{drilled_with, folder_places, is_dashed, number_between, serve_places, talk_places, words_of};
ghost use Rattle.ks_words.specs.declared.words.Places.{Places};
ghost use Rattle.ks_words.specs.declared.words.Words.TheVariants.{Check, Talk, Serve, Setup, Rotate, Password};

/// `check` is given by the one word `check` alone.
pub fn check_is_one_word()
    ensures { (words : List (List ℕ)) → (words_of words ≡ Check) ↔ (words ≡ codes "check" ∷ []) }
{}

/// `talk` is given by the three words `talk`, a file and a folder alone, where neither the file nor the
/// folder begins with `-`. Either may be the empty word.
pub fn talk_is_three_words()
    ensures given { (file folder : List ℕ) → is_dashed file ≡ false → is_dashed folder ≡ false
        → words_of (codes "talk" ∷ file ∷ folder ∷ []) ≡ Talk (talk_places (Some file) (Some folder)) }
    ensures only { (words : List (List ℕ)) (places : Places) → words_of words ≡ Talk places
        → (file folder : List ℕ) × (is_dashed file ≡ false) × (is_dashed folder ≡ false)
        × (words ≡ codes "talk" ∷ file ∷ folder ∷ []) × (places ≡ talk_places (Some file) (Some folder)) }
{}

/// `setup` is given by the two words `setup` and a folder alone, where the folder does not begin with `-`.
pub fn setup_is_two_words()
    ensures given { (folder : List ℕ) → is_dashed folder ≡ false → words_of (codes "setup" ∷ folder ∷ []) ≡ Setup (folder_places (Some folder)) }
    ensures only { (words : List (List ℕ)) (places : Places) → words_of words ≡ Setup places
        → (folder : List ℕ) × (is_dashed folder ≡ false) × (words ≡ codes "setup" ∷ folder ∷ []) × (places ≡ folder_places (Some folder)) }
{}

/// `rotate` with a folder alone leaves at most 3 keys.
pub fn rotate_leaves_three()
    ensures { (folder : List ℕ) → is_dashed folder ≡ false → words_of (codes "rotate" ∷ folder ∷ []) ≡ Rotate (folder_places (Some folder)) 3 }
{}

/// `serve` with a file, a folder and an address alone has 4 workers, which do not count their connections, and
/// no log. The address may be any word that does not begin with `-`.
pub fn serve_has_four_workers()
    ensures { (file folder address : List ℕ) → is_dashed file ≡ false → is_dashed folder ≡ false → is_dashed address ≡ false
        → words_of (codes "serve" ∷ file ∷ folder ∷ address ∷ []) ≡ Serve (serve_places (Some file) (Some folder) (Some address) None 4) 0 }
{}

/// `password` alone derives by 10,000 rounds.
pub fn password_has_ten_thousand_rounds()
    ensures { words_of (codes "password" ∷ []) ≡ Password 10_000 }
{}

/// `drill` with two words behind it, of which neither begins with `-`, is given its numbers by them: the first at most
/// 1,000,000, the second from 1 to 2,000. Where a word writes no such number they are no command's.
pub fn drill_takes_two_numbers()
    ensures { (start count : List ℕ) → is_dashed start ≡ false → is_dashed count ≡ false
        → words_of (codes "drill" ∷ start ∷ count ∷ []) ≡ drilled_with (number_between 0 1_000_000 start) (number_between 1 2_000 count) }
{}
