//! Members of cases that may be left out.
use case_notation::{CaseError, Reader, number_of};
use endpoint_notation::u64_of;
use schema_values::{Json, List};

/// Reads the number of 32 bits under a name, or another where there is none.
pub fn read_number_or(reader: &mut Reader, noted: &Json, name: &str, other: u32) -> u32 {
    match noted.get(name) {
        Some(number) => reader.or(u32_of(number), other),
        None => other,
    }
}

fn u32_of(noted: &Json) -> Result<u32, CaseError> {
    match u32::try_from(number_of(noted)?) {
        Ok(number) => Ok(number),
        Err(_) => Err(CaseError::Expected("a number of 32 bits")),
    }
}

/// Reads the numbers under a name, none where they are left out.
pub fn read_numbers(reader: &mut Reader, noted: &Json, name: &str) -> List<u64> {
    let mut numbers = List::new(reader.alloc());
    if let Some(noted) = noted.get(name) {
        for number in reader.items(noted) {
            let number = reader.or(u64_of(number), 0);
            reader.push(&mut numbers, number);
        }
    }
    numbers
}
