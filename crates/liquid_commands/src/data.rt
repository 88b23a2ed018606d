//! The data of files.
use crate::data_forms::{added, data_of_file, form_of, with_time};
use crate::faults::{print_fault, print_tip};
use crate::given_values::with_values;
use crate::input::{called, text_at};
use crate::seen::input_for;
use crate::stop::Stop;
use crate::{DataFile, Forms, NamedValue, data_tip, no_file_tip};
use liquid_model::{Object, Uses};

/// The data of all files: the members of each, or its object under its name; after them the values
/// of the command line, and last the name `now`. The later wins. A fault of a file or a value is
/// printed.
pub fn read_data(
    rt: &HostRuntime,
    files: &[DataFile<'_>],
    values: &[NamedValue<'_>],
    forms: Forms<'_>,
) -> Result<Object, Stop> {
    let mut data = Object::new(rt.alloc());
    for file in files {
        let text = text_at(rt, file.path)?;
        let more = data_in(rt, file, text.as_str(), forms, None)?;
        data = added(rt.alloc(), data, file.name, more)?;
    }
    let data = with_values(rt, data, values, form_of(forms))?;
    with_time(rt.alloc(), data, forms.now)
}

/// The texts of the files of data, whose data can be read when it is known what is used of it, and
/// again when more is asked for.
#[derive(Drop)]
pub struct DataTexts<'c> {
    files: &'c [DataFile<'c>],
    values: &'c [NamedValue<'c>],
    forms: Forms<'c>,
    texts: Vec<String>,
}

impl<'c> DataTexts<'c> {
    /// Reads the texts of the files, in their order. Where a file can't be read, the fault of an
    /// earlier one is the first, as of [read_data], and is printed.
    pub fn read(
        rt: &HostRuntime,
        files: &'c [DataFile<'c>],
        values: &'c [NamedValue<'c>],
        forms: Forms<'c>,
    ) -> Result<DataTexts<'c>, Stop> {
        let mut read = DataTexts {
            files,
            values,
            forms,
            texts: Vec::new(rt.alloc()),
        };
        for file in files {
            match text_at(rt, file.path) {
                Ok(text) => read.texts.push(text)?,
                Err(stop) => {
                    drop(read.all(rt, None)?);
                    return Err(not_there(rt, file, stop));
                }
            }
        }
        Ok(read)
    }

    /// How many bytes of text there are.
    pub fn bytes(&self) -> usize {
        let mut bytes: usize = 0;
        for text in &self.texts {
            bytes = bytes.saturating_add(text.len());
        }
        bytes
    }

    /// The data of the files as of [read_data], whole or as far as these uses ask for it. A fault
    /// of a file is printed.
    pub fn data(&self, rt: &HostRuntime, uses: Option<&Uses>) -> Result<Object, Stop> {
        let data = with_values(rt, self.all(rt, uses)?, self.values, form_of(self.forms))?;
        with_time(rt.alloc(), data, self.forms.now)
    }

    /// The data of the files that were read alone.
    fn all(&self, rt: &HostRuntime, uses: Option<&Uses>) -> Result<Object, Stop> {
        let mut data = Object::new(rt.alloc());
        for (file, text) in self.files.iter().zip(self.texts.iter()) {
            let more = data_in(rt, file, text.as_str(), self.forms, uses)?;
            data = added(rt.alloc(), data, file.name, more)?;
        }
        Ok(data)
    }
}

/// Why a file of data can't be read. Where its path gives a name a value, it is printed with the
/// option that does so.
fn not_there(rt: &HostRuntime, file: &DataFile<'_>, stop: Stop) -> Stop {
    match (file.name, no_file_tip(file.path)) {
        (None, Some(tip)) => {
            stop.print(rt);
            print_tip(rt, Some(tip));
            Stop::Faulted
        }
        _ => stop,
    }
}

/// The data of one file, whole or as far as these uses ask for it. Its fault is printed.
fn data_in(
    rt: &HostRuntime,
    file: &DataFile<'_>,
    text: &str,
    forms: Forms<'_>,
    uses: Option<&Uses>,
) -> Result<Object, Stop> {
    let path = file.path;
    let form = form_of(forms);
    let read = match uses {
        Some(uses) => input_for(rt.alloc(), file, text, form, uses),
        None => data_of_file(rt.alloc(), path, text, form),
    };
    match read {
        Ok(data) => Ok(data),
        Err(fault) => {
            print_fault(rt, called(path), &fault, Some(text));
            print_tip(rt, data_tip(fault.kind, path, forms.decimals_as_texts));
            Err(Stop::Faulted)
        }
    }
}
