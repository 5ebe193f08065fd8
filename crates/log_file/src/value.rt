// The log's schema.
ghost use Rattle.std.specs.Prelude.{◌≡◌, IfOk, IfSome};
ghost use Rattle.column_block.specs.Schemas.{IsSchema};
ghost use Rattle.log_file.specs.Values.{columns_of, kind_of};

use column_block::{Column, Kind, Schema};
use log_codec::ColumnSpec;
use std::alloc::{AllocError, Global};

/// The schema that a log's header names, whose columns make one. None for want of memory.
pub fn schema_of(alloc: Global, specs: &[ColumnSpec]) -> Option<Schema>
    requires { IsSchema (columns_of specs.now) }
    ensures { IfSome result (λ schema. schema ≡ columns_of specs.now) }
{
    let Ok(columns) = columns_of(alloc, specs) else {
        return None;
    };
    match Schema::new(columns) {
        Ok(schema) => Some(schema),
        Err(_) => None,
    }
}

fn columns_of(alloc: Global, specs: &[ColumnSpec]) -> Result<Vec<Column>, AllocError>
    ensures { IfOk result (λ columns. columns.items ≡ columns_of specs.now) }
{
    let mut columns = Vec::new(alloc);
    for spec in specs {
        columns.push(Column {
            id: spec.id,
            kind: kind_of(spec.kind),
        })?;
    }
    Ok(columns)
}

fn kind_of(number: u8) -> Kind
    ensures { result ≡ kind_of number }
{
    match number {
        1 => Kind::Int,
        2 => Kind::Uint,
        _ => Kind::Bytes,
    }
}
