//! The winning declarations of an element.
ghost use Rattle.std.specs.Prelude.{◌≡◌, ◌≢◌, ◌≤◌, [], length, IfOk, IsTrue, OnOk, option_copied};
ghost use Rattle.doc_tree.specs.Element.{is_in};
ghost use Rattle.cascade_sort.specs.Applying.{applied_to, style_declarations};
ghost use Rattle.cascade_sort.specs.Finding.{collected, declaration_by, declaration_in_rule, with_kept, with_longhand};
ghost use Rattle.cascade_sort.specs.Winning.{AreWinners, declared_of};

use crate::finding::offer_sheets;
use crate::precedence::Precedence;
use crate::strongest::Strongest;
use computed_style::{DeclaredSet, Winning};
use doc_tree::{MAX_STYLE_BYTES, Tree};
use sheet_rules::{CssFault, read_style};
use sheet_types::{Declaration, Sheet, Sheets};
use shorthand_text::Longhand;
use std::alloc::{AllocError, Global};

/// The winning declarations of element `n`, among all that apply to it: those of its style attribute, none where its
/// text has a fault, and those of the rules of which a selector matches it (CSS Cascade 5, section 6).
pub fn declared(
    alloc: Global,
    sheets: &Sheets,
    tree: &Tree,
    n: u32,
) -> Result<DeclaredSet, AllocError>
    requires { IsTrue (is_in n tree.now.elements) }
    ensures value { IfOk result (λ d. d ≡ declared_of sheets.now tree.now.elements n) }
    // What these are, without saying how they are had.
    ensures winners { IfOk result (AreWinners (applied_to sheets.now tree.now.elements n)) }
{
    declared_like(alloc, sheets, tree, n, &DeclaredSet::empty())
}

/// The same, shared with `last` where that was collected alike, as of an element whose declarations haven't changed.
pub fn declared_like(
    alloc: Global,
    sheets: &Sheets,
    tree: &Tree,
    n: u32,
    last: &DeclaredSet,
) -> Result<DeclaredSet, AllocError>
    requires { IsTrue (is_in n tree.now.elements) }
    ensures value { IfOk result (λ d. d ≡ declared_of sheets.now tree.now.elements n) }
    ensures winners { IfOk result (AreWinners (applied_to sheets.now tree.now.elements n)) }
{
    let Some(element) = tree.element(n) else {
        unreachable!();
    };
    let style = style_declarations(alloc, element.style())?;
    let mut strongest = Strongest::none();
    offer_sheets(&mut strongest, sheets.as_slice(), element, tree, n);
    strongest.offer_block(STYLE, &style);
    collected(alloc, &strongest, sheets.as_slice(), &style, last)
}

/// The precedence of the style attribute's block.
const STYLE: Precedence = Precedence {
    attached: true,
    specificity: (0, 0, 0),
    sheet: 0,
    rule: 0,
    declaration: 0,
};

fn style_declarations(alloc: Global, text: &str) -> Result<Vec<Declaration>, AllocError>
    requires { length text.now ≤ MAX_STYLE_BYTES }
    ensures { IfOk result (λ v. v.items ≡ style_declarations text.now) }
{
    match read_style(alloc, text) {
        Ok(declarations) => Ok(declarations),
        Err(fault) => none_after(alloc, fault),
    }
}

/// No declaration, unless the fault is want of memory.
fn none_after(alloc: Global, fault: CssFault) -> Result<Vec<Declaration>, AllocError>
    ensures none { IfOk result (λ v. v.items ≡ []) }
    ensures memory { OnOk result (fault ≢ CssFault.NoMemory) }
{
    match fault {
        CssFault::NoMemory => Err(AllocError),
        _ => Ok(Vec::new(alloc)),
    }
}

/// The declarations that the slots keep, as winners.
fn collected(
    alloc: Global,
    strongest: &Strongest,
    sheets: &[Option<Sheet>],
    style: &[Declaration],
    last: &DeclaredSet,
) -> Result<DeclaredSet, AllocError>
    ensures { IfOk result (λ d. d ≡ collected (declaration_by sheets.now style.now) strongest.now) }
{
    let mut winning = Winning::new(alloc);
    for slot in strongest.slots() {
        put_kept(alloc, &mut winning, slot, sheets, style)?;
    }
    winning.finish_like(alloc, last)
}

fn put_kept(
    alloc: Global,
    winning: &mut Winning,
    slot: &Option<Precedence>,
    sheets: &[Option<Sheet>],
    style: &[Declaration],
) -> Result<(), AllocError>
    ensures { OnOk result (winning.new ≡ with_kept (declaration_by sheets.now style.now) winning.old slot.now) }
{
    let Some(precedence) = slot else {
        return Ok(());
    };
    match declaration_by(sheets, style, precedence) {
        None => Ok(()),
        Some(declaration) => put(alloc, winning, declaration),
    }
}

fn put(alloc: Global, winning: &mut Winning, declaration: &Declaration) -> Result<(), AllocError>
    ensures { OnOk result (winning.new ≡ with_longhand winning.old declaration.now.important declaration.now.longhand) }
{
    let parts = declaration.get();
    match &parts.longhand {
        Longhand::Property(p, declared) => winning.put(*p, parts.important, *declared),
        Longhand::List(name, value) => {
            winning.put_list(*name, parts.important, value.copy(alloc)?)
        }
    }
}

/// The declaration of the precedence.
fn declaration_by<'a>(
    sheets: &'a [Option<Sheet>],
    style: &'a [Declaration],
    precedence: &Precedence,
) -> Option<&'a Declaration>
    ensures { option_copied result ≡ declaration_by sheets.now style.now precedence.now }
{
    if precedence.attached {
        style.get(precedence.declaration)
    } else {
        declaration_in_rule(sheets, precedence)
    }
}

fn declaration_in_rule<'a>(
    sheets: &'a [Option<Sheet>],
    precedence: &Precedence,
) -> Option<&'a Declaration>
    ensures { option_copied result ≡ declaration_in_rule sheets.now precedence.now }
{
    let Some(Some(sheet)) = sheets.get(precedence.sheet) else {
        return None;
    };
    let Some(rule) = sheet.rules().get(precedence.rule) else {
        return None;
    };
    rule.declarations.get(precedence.declaration)
}
