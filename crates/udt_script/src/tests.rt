// Lines as the script language shows them.

mod connections;
mod printing;
mod reading;
