//! What holds of texts by the definitions alone.
ghost use Rattle.std.specs.Prelude.{◌≡◌, ◌↔◌, ◌⊎◌, ◌+◌, ◌≤◌, ℕ, List, [], ◌++◌, Some, None, Ok, Err, if◌then◌else◌, map};
ghost use Rattle.css_token.specs.TokenLists.{bytes_of};
ghost use Rattle.css_token.specs.declared.token.Token.{Token};
ghost use Rattle.fix_num.specs.declared.units.Bill.{Bill};
ghost use Rattle.value_types.specs.declared.frame.Frame.{Frame};
ghost use Rattle.value_types.specs.declared.property.PropertyId.{PropertyId};
ghost use Rattle.shorthand_text.specs.KnownNames.{known_name};
ghost use Rattle.sheet_types.specs.Sheets.{SheetRules, no_rules};
ghost use Rattle.sheet_types.specs.declared.declaration.DeclarationParts.{DeclarationParts};
ghost use Rattle.sheet_rules.specs.declared.block_kind.BlockKind.{BlockKind};
ghost use Rattle.sheet_rules.specs.declared.fault.CssFault.{CssFault};
ghost use Rattle.sheet_rules.specs.declared.fault.CssFault.TheVariants.{BadToken};
ghost use Rattle.sheet_rules.specs.Alike.{AreAlike};
ghost use Rattle.sheet_rules.specs.BlockGrammar.{IsBlock, IsDeclaration, IsFaultyBlock, IsName};
ghost use Rattle.sheet_rules.specs.Blocks.{after_separators, block_at};
ghost use Rattle.sheet_rules.specs.Frames.{frame_of, is_of, put_frame};
ghost use Rattle.sheet_rules.specs.Moving.{moved_declaration, rule_count, sheet_after};
ghost use Rattle.sheet_rules.specs.Pairing.{IsUnpaired, IsValue};
ghost use Rattle.sheet_rules.specs.Rules.{declarations_in, sheet_of};
ghost use Rattle.sheet_rules.specs.Scanning.{value_len};
ghost use Rattle.sheet_rules.specs.SheetGrammar.{AreRules, IsFaultySheet, IsSheet};
ghost use Rattle.sheet_rules.specs.StyleGrammar.{IsFaultyStyle, IsStyle};

/// The count of a value's tokens is told exactly where its brackets pair up to its end, and else the first token
/// that may not follow.
pub fn values_pair()
    ensures value { (end : ℕ) (ts : List Token) (n : ℕ) → IsValue ts n ↔ (value_len end [] ts ≡ Ok n) }
    ensures fault { (end : ℕ) (ts : List Token) (at : ℕ) → IsUnpaired end ts at ↔ (value_len end [] ts ≡ Err (BadToken at)) }
{}

/// The reading of a block is what the grammar says of it, and its first fault exactly where it is none.
pub fn block_reading_is_exact()
    ensures block { (block : BlockKind) (text : List ℕ) (ts : List Token) (ds : List DeclarationParts) (rest : List Token)
        → IsBlock block text 0 ts ds rest ↔ (block_at block text 0 64 ts ≡ Ok (ds, rest)) }
    ensures fault { (block : BlockKind) (text : List ℕ) (ts : List Token) (fault : CssFault)
        → IsFaultyBlock block text 0 ts fault ↔ (block_at block text 0 64 ts ≡ Err fault) }
{}

/// The reading of a style attribute is what the grammar says of it, and its first fault exactly where it is none.
pub fn style_reading_is_exact()
    ensures style { (text : List ℕ) (ds : List DeclarationParts) → IsStyle text ds ↔ (declarations_in text ≡ Ok ds) }
    ensures fault { (text : List ℕ) (fault : CssFault) → IsFaultyStyle text fault ↔ (declarations_in text ≡ Err fault) }
{}

/// A text is a style attribute or has a first fault, and never both; and it has one of either kind.
pub fn a_style_or_a_fault()
    ensures either { (text : List ℕ)
        → ((ds : List DeclarationParts) × IsStyle text ds) ⊎ ((fault : CssFault) × IsFaultyStyle text fault) }
    ensures never_both { (text : List ℕ) (ds : List DeclarationParts) (fault : CssFault)
        → IsStyle text ds → IsFaultyStyle text fault → ⊥ }
    ensures one_style { (text : List ℕ) (ds others : List DeclarationParts)
        → IsStyle text ds → IsStyle text others → ds ≡ others }
    ensures one_fault { (text : List ℕ) (fault other : CssFault)
        → IsFaultyStyle text fault → IsFaultyStyle text other → fault ≡ other }
{}

/// The reading of a sheet is what the grammar says of it, and its first fault exactly where it is none.
pub fn sheet_reading_is_exact()
    ensures sheet { (text : List ℕ) (sheet : SheetRules) → IsSheet text sheet ↔ (sheet_of text ≡ Ok sheet) }
    ensures fault { (text : List ℕ) (fault : CssFault) → IsFaultySheet text fault ↔ (sheet_of text ≡ Err fault) }
{}

/// A text is a sheet or has a first fault, and never both; and it has one of either kind.
pub fn a_sheet_or_a_fault()
    ensures either { (text : List ℕ)
        → ((sheet : SheetRules) × IsSheet text sheet) ⊎ ((fault : CssFault) × IsFaultySheet text fault) }
    ensures never_both { (text : List ℕ) (sheet : SheetRules) (fault : CssFault)
        → IsSheet text sheet → IsFaultySheet text fault → ⊥ }
    ensures one_sheet { (text : List ℕ) (sheet other : SheetRules) → IsSheet text sheet → IsSheet text other → sheet ≡ other }
    ensures one_fault { (text : List ℕ) (fault other : CssFault)
        → IsFaultySheet text fault → IsFaultySheet text other → fault ≡ other }
{}

/// Of the frames of one offset and property the one that is put later is kept, and no other changes.
pub fn later_frames_win()
    ensures { (at : Bill) (p : PropertyId) (f : Frame) (fs : List Frame)
        → frame_of at p (put_frame f fs) ≡ (if is_of at p f then Some f else frame_of at p fs) }
{}

/// A sheet whose tokens follow those of another: its rules stand after that one's, at the places after them, where the whole is
/// within the limit.
pub fn sheets_join()
    ensures { (text : List ℕ) (ts us : List Token) (first own : SheetRules) → AreRules text 0 no_rules ts first → AreRules text 0 no_rules us own
        → rule_count first + rule_count own ≤ 4096 → AreRules text 0 no_rules (ts ++ us) (sheet_after first own) }
{}

/// A declaration of an unknown property can be cut out of a block: it gives nothing, and what follows it reads as if it stood in
/// its place, but for the places among the declarations.
pub fn unknown_declarations_can_be_cut_out()
    ensures { (block : BlockKind) (text : List ℕ) (place : ℕ) (ts : List Token) (name : Token) (after : List Token) (ds : List DeclarationParts) (rest : List Token)
        → IsName (after_separators ts) name after → known_name (bytes_of text name) ≡ None → IsBlock block text place ts ds rest
        → (next : List Token) × (others : List DeclarationParts) × IsDeclaration block text place name after [] next
        × IsBlock block text place next others rest × (ds ≡ map moved_declaration others) }
{}

/// A longer run of white space, where one stands, changes nothing, nor does any other place of a token: tokens of the same kinds
/// and the same bytes, but for white space, are the same rules and the same declarations in either text.
pub fn white_space_counts_once()
    ensures sheet { (text other : List ℕ) (ts us : List Token) (sheet : SheetRules) → AreAlike text other ts us
        → AreRules text 0 no_rules ts sheet → AreRules other 0 no_rules us sheet }
    ensures block { (block : BlockKind) (text other : List ℕ) (ts us : List Token) (ds : List DeclarationParts) (rest : List Token) → AreAlike text other ts us
        → IsBlock block text 0 ts ds rest → (others : List Token) × IsBlock block other 0 us ds others × AreAlike text other rest others }
{}
