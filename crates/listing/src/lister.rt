// Files as they are listed, one after another. A file that cannot be read or is refused does not keep others from being listed.
ghost use Rattle.std.specs.Prelude.{◌≡◌, IfOk, OnOk, IsTrue, false};
ghost use Rattle.printing.specs.Naming.{Unnamed};

use crate::failures::Failure;
use crate::printer::Printer;
use printing::{Sources, sources_in};
use std::alloc::AllocError;
use std::io;
use std::rt::Files;

// Lists files on the standard output.
#[derive(Drop)]
pub struct Lister<'r, R> {
    rt: &'r R,
    printer: Printer<'r, R>,
    // Whether nothing has been listed so far.
    is_first: bool,
    // Whether every file so far was read and is in order.
    pub are_listed: bool,
}

impl<'r, R: Files + Print + AllocGlobal> Lister<'r, R> {
    // A lister that has listed nothing yet.
    pub fn new(rt: &'r R) -> Result<Lister<'r, R>, AllocError>
        ensures { IfOk result (λ l. IsTrue l.are_listed) }
    {
        Ok(Lister {
            rt,
            printer: Printer::new(rt)?,
            is_first: true,
            are_listed: true,
        })
    }

    // Lists what the sources name, after an empty line if something was listed before.
    pub fn list(&mut self, sources: Sources) -> Result<(), Failure>
        ensures { IsTrue self.new.are_listed → IsTrue self.old.are_listed }
    {
        self.separate()?;
        let is_listed = match sources {
            Sources::Alone(name) => self.printer.list_tables(name)?,
            Sources::Three(names) => self.printer.list_three(names)?,
        };
        self.are_listed = self.are_listed && is_listed;
        Ok(())
    }

    // Lists what a line names: one file of tables, or three files with a tab between two names.
    pub fn list_line(&mut self, line: &str) -> Result<(), Failure>
        ensures listed { IsTrue self.new.are_listed → IsTrue self.old.are_listed }
        ensures unnamed { OnOk result (Unnamed line.now → self.new.are_listed ≡ false) }
    {
        let Some(sources) = sources_in(line) else {
            self.separate()?;
            self.rt.println(line)?;
            println!(self.rt; "is neither one name nor three names with tabs between them")?;
            self.are_listed = false;
            return Ok(());
        };
        self.list(sources)
    }

    // Prints an empty line if something was listed before.
    fn separate(&mut self) -> io::Result<()>
        ensures { self.new.are_listed ≡ self.old.are_listed }
    {
        if !self.is_first {
            println!(self.rt)?;
        }
        self.is_first = false;
        Ok(())
    }
}

#[cfg(test)]
mod tests {
    use super::*;
    use printing::Branches;
    use std::test::Fail;

    #[test]
    fn branches_have_memory(rt: HostRuntime) -> Result<(), Fail> {
        let mut branches = Branches::new(rt.alloc());
        assert!(rt; branches.enter(2, true).is_ok());
        Ok(())
    }

    #[test]
    fn new_has_memory(rt: HostRuntime) -> Result<(), Fail> {
        assert!(rt; Lister::new(&rt).is_ok());
        Ok(())
    }

    #[test]
    fn a_missing_file_is_not_listed(rt: HostRuntime) -> Result<(), Fail> {
        let mut lister = Lister::new(&rt)?;
        assert!(rt; lister.list(Sources::Alone("")).is_ok());
        assert!(rt; !lister.are_listed);
        Ok(())
    }

    #[test]
    fn two_names_are_not_listed(rt: HostRuntime) -> Result<(), Fail> {
        let mut lister = Lister::new(&rt)?;
        assert!(rt; lister.list_line("one.tables\tone.dtype").is_ok());
        assert!(rt; !lister.are_listed);
        Ok(())
    }
}
