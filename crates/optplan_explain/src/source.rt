//! The files that a command has read.

ghost use Rattle.std.specs.Prelude.{◌≡◌};
ghost use Rattle.optplan_explain.specs.Files.{no_files, task_files, files_of, with_plan, with_sas, with_cert};

/// A file that a command has read.
#[derive(Clone, Copy, Debug)]
pub struct Source<'a> {
    /// Its path, as in the arguments.
    pub path: &'a str,
    /// Its bytes.
    pub text: &'a [u8],
}

/// The files that a fault may name, each `None` if it was not read.
#[derive(Clone, Copy, Debug)]
pub struct Sources<'a> {
    pub domain: Option<Source<'a>>,
    pub problem: Option<Source<'a>>,
    pub plan: Option<Source<'a>>,
    pub sas: Option<Source<'a>>,
    pub cert: Option<Source<'a>>,
}

impl<'a> Sources<'a> {
    /// Returns no file.
    pub fn none() -> Sources<'a>
        ensures { files_of result ≡ no_files }
    {
        Sources {
            domain: None,
            problem: None,
            plan: None,
            sas: None,
            cert: None,
        }
    }

    /// Returns the two files of a planning task.
    pub fn of_task(
        domain: &'a str,
        domain_text: &'a [u8],
        problem: &'a str,
        problem_text: &'a [u8],
    ) -> Sources<'a>
        ensures { files_of result ≡ task_files domain.entry.now domain_text.entry.now problem.entry.now problem_text.entry.now }
    {
        Sources {
            domain: Some(Source {
                path: domain,
                text: domain_text,
            }),
            problem: Some(Source {
                path: problem,
                text: problem_text,
            }),
            ..Sources::none()
        }
    }

    /// Returns these files with a plan's.
    pub fn with_plan(self, path: &'a str, text: &'a [u8]) -> Sources<'a>
        ensures { files_of result ≡ with_plan (files_of self.entry) path.entry.now text.entry.now }
    {
        Sources {
            plan: Some(Source { path, text }),
            ..self
        }
    }

    /// Returns these files with that of a finite-domain task.
    pub fn with_sas(self, path: &'a str, text: &'a [u8]) -> Sources<'a>
        ensures { files_of result ≡ with_sas (files_of self.entry) path.entry.now text.entry.now }
    {
        Sources {
            sas: Some(Source { path, text }),
            ..self
        }
    }

    /// Returns these files with a certificate's.
    pub fn with_cert(self, path: &'a str, text: &'a [u8]) -> Sources<'a>
        ensures { files_of result ≡ with_cert (files_of self.entry) path.entry.now text.entry.now }
    {
        Sources {
            cert: Some(Source { path, text }),
            ..self
        }
    }
}
