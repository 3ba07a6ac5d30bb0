// The report for callers outside. How an answer is told, and what is asked of a caller, stands in `laying`.
#![tactic(auto)]

ghost use Rattle.std.specs.Prelude.{◌≡◌, length};
ghost use Rattle.paging.specs.Services.{laid};
ghost use Rattle.reporting.specs.Report.{report_of};
ghost use Rattle.exports_report.specs.Words.{text_words};

use laying::lay;

// The report's text at the front of the room, and how many bytes of it there are.
#[unsafe(no_mangle)]
pub extern "C" fn hedravos_report(file: &[u8], room: &mut [u8], answer: &mut [u32])
    ensures room { room.new ≡ laid (report_of file.now) room.old }
    ensures answer { answer.new ≡ laid (text_words (report_of file.now) (length room.old)) answer.old }
{
    let bytes = reporting::report(file, room) as u32;
    lay(&[bytes], answer);
}
