// What a cabinet reads of the others: the readings of a sheet, by FCA as sent, by CCA as decided. They are held as
// marks and as values of 32 bits beside them.
#![tactic(auto)]

ghost use Rattle.std.specs.Prelude.{◌≡◌, ◌*◌, ◌≤◌, ◌<◌, cond, eqb, length, IsTrue};
ghost use Rattle.model.specs.Ensemble.{max_cabinets};
ghost use Rattle.model.specs.RoundSheet.{cca, sheet_length};
ghost use Rattle.reception.specs.Receiving.{fitting, fitting_direct, marks_received, values_received};

use model::{CCA, HEADER_SIZE, MAX_CABINETS, Settings};

// Whether a sheet and lent lists fit settings with at most 64 cabinets, of which more than half must agree.
#[tactic(auto, unfolding(crate::specs::Receiving::fitting))]
fn fits(settings: Settings, sheet: usize, marks: usize, values: usize) -> bool
    ensures value { result ≡ fitting settings sheet marks values }
    ensures sizes { IsTrue result
        → (settings.n ≤ max_cabinets) × (2 * settings.m < settings.n) × (sheet ≡ sheet_length settings)
        × (marks ≡ settings.n) × (values ≡ settings.n) }
{
    let n = settings.n as usize;
    let m = settings.m as usize;
    ((settings.n <= MAX_CABINETS) & (2 * m < n))
        & ((sheet == sheet_sizes::sheet_length(settings)) & ((marks == n) & (values == n)))
}

// Fills the lists with the readings of a sheet that holds them as sent, as those of every rule but CCA do. By CCA, and
// where the sizes do not fit, it changes nothing, and answers false.
pub fn receive_direct(
    sheet: &[u8],
    settings: Settings,
    marks: &mut [u8],
    values: &mut [u32],
) -> bool
    ensures value { result
        ≡ fitting_direct settings
        (length sheet.now) (length marks.old) (length values.old) }
    ensures marks_after { marks.new
        ≡ cond (eqb settings.rule cca) marks.old
        (marks_received sheet.now settings marks.old values.old) }
    ensures values_after { values.new
        ≡ cond (eqb settings.rule cca) values.old
        (values_received sheet.now settings marks.old values.old) }
{
    let n = settings.n as usize;
    if settings.rule == CCA {
        return false;
    }
    if !fits(settings, sheet.len(), marks.len(), values.len()) {
        return false;
    }
    let end = HEADER_SIZE + n;
    sent_readings::receive_sent(
        &sheet[HEADER_SIZE..end],
        &sheet[end..end + 4 * n],
        marks,
        values,
    );
    true
}

// Fills the lists with the sheet's readings. Where the sizes do not fit it changes nothing, and answers false.
#[tactic(auto, using(crate::proofs::Sheets::entries_relayed))]
pub fn receive(sheet: &[u8], settings: Settings, marks: &mut [u8], values: &mut [u32]) -> bool
    ensures value { result
        ≡ fitting settings
        (length sheet.now) (length marks.old) (length values.old) }
    ensures marks_after { marks.new
        ≡ marks_received sheet.now settings marks.old values.old }
    ensures values_after { values.new
        ≡ values_received sheet.now settings marks.old values.old }
{
    if settings.rule != CCA {
        return receive_direct(sheet, settings, marks, values);
    }
    let n = settings.n as usize;
    if !fits(settings, sheet.len(), marks.len(), values.len()) {
        return false;
    }
    let need = settings.n - settings.m;
    let body = HEADER_SIZE + n * n;
    decided_readings::receive_decided(
        &sheet[HEADER_SIZE..body],
        &sheet[body..],
        n,
        need as u32,
        marks,
        values,
    );
    true
}
